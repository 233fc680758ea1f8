// Words and whole numbers as text, put into a buffer one after the other: each function takes the place
// where it begins and answers the place after it.
#![tactic(auto)]

ghost use Rattle.std.specs.Prelude.{◌≡◌, ◌++◌, ◌+◌, ◌≤◌, length, take, pos, ◌-ℤ◌};
ghost use Rattle.text.specs.Decimal.{decimal_of, whole_text};
ghost use Rattle.text.specs.Lines.{newline as Newline};

// Some words.
pub fn put(out: &mut [u8], at: usize, words: &[u8]) -> usize
    requires { at + length words.now ≤ length out.old }
    ensures value { result ≡ at + length words.now }
    ensures out_after { take result out.new ≡ take at out.old ++ words.now }
{
    let next = at + words.len();
    out[at..next].copy_from_slice(words);
    next
}

// A whole number in decimal.
pub fn number(out: &mut [u8], at: usize, n: u64) -> usize
    requires { at + 20 ≤ length out.old }
    ensures upper_bound { result ≤ at + 20 }
    ensures out_after { take result out.new ≡ take at out.old ++ decimal_of n }
{
    let mut digits = [0u8; 20];
    let count = io::decimal(n, &mut digits);
    put(out, at, &digits[..count])
}

// a - b in decimal.
pub fn difference(out: &mut [u8], at: usize, a: u64, b: u64) -> usize
    requires { at + 21 ≤ length out.old }
    ensures upper_bound { result ≤ at + 21 }
    ensures out_after { take result out.new ≡ take at out.old ++ whole_text (pos a -ℤ pos b) }
{
    if a < b {
        let next = put(out, at, b"-");
        return number(out, next, b - a);
    }
    number(out, at, a - b)
}

// The end of a line.
pub fn newline(out: &mut [u8], at: usize) -> usize
    requires { at + 1 ≤ length out.old }
    ensures value { result ≡ at + 1 }
    ensures out_after { take result out.new ≡ take at out.old ++ Newline }
{
    put(out, at, b"\n")
}
