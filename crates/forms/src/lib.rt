// Numbers in groups of seven bits, low group first, top bit set on all but the last: at most three
// groups and no padding; numbers of eight bytes. How values are put together as bytes is `specs/Form`.
#![tactic(auto)]

pub mod put; // put.rt: numbers put into bytes

ghost use Rattle.std.specs.Prelude.{◌≡◌};
ghost use Rattle.forms.specs.Groups.{number_at};

// A number and the place after it.
#[derive(Clone, Copy)]
pub struct Number {
    pub value: usize,
    pub next: usize,
}

// A last group behind others that adds nothing.
const PADDING: usize = 0;

// A third group from here on says that a fourth follows.
const FOURTH_FOLLOWS: usize = 128;

// The number in groups from a place of the bytes on; none, where none reads.
pub fn number_at(bytes: &[u8], at: usize) -> Option<Number>
    ensures { result ≡ number_at bytes.now at }
{
    let a = usize::from(*bytes.get(at)?);
    let second = at + 1;
    if a < 128 {
        return Some(Number {
            value: a,
            next: second,
        });
    }
    let b = usize::from(*bytes.get(second)?);
    let third = second + 1;
    if b == PADDING {
        return None;
    }
    if b < 128 {
        return Some(Number {
            value: a - 128 + 128 * b,
            next: third,
        });
    }
    let c = usize::from(*bytes.get(third)?);
    if c == PADDING || FOURTH_FOLLOWS <= c {
        return None;
    }
    Some(Number {
        value: a - 128 + 128 * (b - 128 + 128 * c),
        next: third + 1,
    })
}
