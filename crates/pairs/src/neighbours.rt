// The next number down and up, without a branch that depends on the sign: one step of the bits.
ghost use Rattle.std.specs.Prelude.{false, true, ◌⊎◌, ◌≡◌, ◌<◌, ◌≤◌};
ghost use Rattle.std.specs.Float.{binary64, inf};
ghost use Rattle.std.specs.Float.Ieee.{lt};
ghost use Rattle.fraction.specs.NextNumber.{down_bits, next_down, next_up, up_bits};

// b, but the pattern `to` for the pattern `from`.
fn put(b: u64, from: u64, to: u64) -> u64
    ensures { (b ≡ from → result ≡ to) × ((b ≡ from → ⊥) → result ≡ b) }
{
    if b == from {
        return to;
    }
    b
}

// The patterns of the next number down and up, from those of any number with one below or above it.
fn down_bits(b: u64) -> u64
    requires { b < 0xfff0_0000_0000_0000 }
    ensures { result ≡ down_bits binary64 b }
{
    let z = put(b, 0, 0x8000_0000_0000_0000);
    z + 2 * (z >> 63) - 1
}

fn up_bits(b: u64) -> u64
    requires { (b < 0x7ff0_0000_0000_0000 ⊎ 0x8000_0000_0000_0000 ≤ b) × (b ≤ 0xfff0_0000_0000_0000) }
    ensures { result ≡ up_bits binary64 b }
{
    let z = put(b, 0x8000_0000_0000_0000, 0);
    z + 1 - 2 * (z >> 63)
}

// The greatest number below x, which is above -infinity.
pub(crate) fn step_down(x: f64) -> f64
    requires { lt (inf true) x ≡ true }
    ensures { result ≡ next_down binary64 x }
{
    f64::from_bits(down_bits(f64::to_bits(x)))
}

// The least number above x, which is below +infinity.
pub(crate) fn step_up(x: f64) -> f64
    requires { lt x (inf false) ≡ true }
    ensures { result ≡ next_up binary64 x }
{
    f64::from_bits(up_bits(f64::to_bits(x)))
}

// The greatest number below x; the lowest goes to -infinity. -infinity and a NaN stay.
pub(crate) fn next_down(x: f64) -> f64
    ensures { result ≡ next_down binary64 x }
{
    if -1.0 / 0.0 < x {
        return step_down(x);
    }
    x
}
