// The fields of a line, put into a buffer: each function takes the place where it begins and answers the
// place after it.
ghost use Rattle.std.specs.Prelude.{◌≡◌, ◌++◌, ◌+◌, ◌≤◌, length, take};
ghost use Rattle.encoding.specs.Text.{float_text};
ghost use Rattle.text.specs.Decimal.{decimal_of};
ghost use Rattle.text.specs.Lines.{field};

// A blank, and a whole number in decimal.
pub(crate) fn number(out: &mut [u8], at: usize, n: u64) -> usize
    requires { at + 21 ≤ length out.old }
    ensures upper_bound { result ≤ at + 21 }
    ensures out_after { take result out.new ≡ take at out.old ++ field (decimal_of n) }
{
    let next = text::put(out, at, b" ");
    text::number(out, next, n)
}

// An f64 as 16 hex digits, or `NaN`.
pub(crate) fn float(out: &mut [u8], at: usize, x: f64) -> usize
    requires { at + 16 ≤ length out.old }
    ensures upper_bound { result ≤ at + 16 }
    ensures out_after { take result out.new ≡ take at out.old ++ float_text x }
{
    let words = encoding::hex(x);
    text::put(out, at, words.as_bytes())
}
