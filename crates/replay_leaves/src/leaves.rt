// Cases of crate `float`.
ghost use Rattle.std.specs.Prelude.{◌≡◌, ◌≤◌, IsSome};
ghost use Rattle.listing.specs.Lines.{Unanswered};

use listing::list::Head;
use listing::output::Output;

// What a leaf gives: a number, or a whole number.
trait Told {
    fn tell(self, out: &mut Output);
}

impl Told for f64 {
    fn tell(self, out: &mut Output) {
        out.cell(self);
    }
}

impl Told for u64 {
    fn tell(self, out: &mut Output) {
        out.whole(self);
    }
}

// What `leaf` gives for each cell.
fn each<T: Told, F: Fn(f64) -> T>(name: &[u8], leaf: F, cells: &[f64], out: &mut Output)
    requires { F.IsAlwaysCallable leaf }
{
    out.text(name);
    for x in cells {
        leaf(*x).tell(out);
    }
    out.end();
}

// What `leaf` gives for each two cells.
fn each_two<T: Told, F: Fn(f64, f64) -> T>(name: &[u8], leaf: F, cells: &[f64], out: &mut Output)
    requires { F.IsAlwaysCallable leaf }
{
    out.text(name);
    for two in cells.chunks_exact(2) {
        leaf(two[0], two[1]).tell(out);
    }
    out.end();
}

// 0, 1 or 2 where x comes before y, is y or comes after y.
fn compared(x: f64, y: f64) -> u64 {
    if !float::total_le(x, y) {
        return 2;
    }
    u64::from(float::total_le(y, x))
}

// Kinds 10 to 16: a number for each cell, or an answer for each two.
pub fn leaf(kind: u8, cells: &[f64], out: &mut Output) -> Option<()>
    ensures unanswered { Unanswered out.old out.new result }
    ensures answered { 10 ≤ kind → kind ≤ 16 → IsSome result }
{
    match kind {
        10 => each(b"sqrt", |x| float::sqrt(x), cells, out),
        11 => each(b"abs", |x| float::abs(x), cells, out),
        12 => each_two(b"max", |x, y| float::max(x, y), cells, out),
        13 => each_two(b"min", |x, y| float::min(x, y), cells, out),
        14 => each(b"next_up", |x| float::next_up(x), cells, out),
        15 => each(b"next_down", |x| float::next_down(x), cells, out),
        16 => each_two(b"total_cmp", compared, cells, out),
        _ => return None,
    }
    Some(())
}

// The exponent of kinds 17 and 18, which is whole number 1.
fn exponent_of(head: Head) -> Option<u32> {
    if 0x7fff_ffff < head.wholes[1] {
        return None;
    }
    Some(head.wholes[1] as u32)
}

// Kind 17: a power of each cell.
pub fn power(head: Head, cells: &[f64], out: &mut Output) -> Option<()>
    ensures { Unanswered out.old out.new result }
{
    let exponent = exponent_of(head)?;
    each(b"powi", |x| float::powi(x, exponent), cells, out);
    Some(())
}

// Kind 18: whether each cell is finite.
pub fn is_finite(head: Head, cells: &[f64], out: &mut Output) -> Option<()>
    ensures { Unanswered out.old out.new result }
{
    exponent_of(head)?;
    each(b"is_finite", |x| u64::from(float::is_finite(x)), cells, out);
    Some(())
}
