// The next number up and sums rounded upward, for numbers of a known size: no branch, and no test of an end.
ghost use Rattle.std.specs.Prelude.{cond, ◌⊎◌, ◌≡◌, ◌<◌, ◌≤◌, ℕ};
ghost use Rattle.std.specs.Float.{binary64};
ghost use Rattle.fraction.specs.NextNumber.{next_up, up_bits};
ghost use Rattle.pairs.specs.Spreads.{Number, UpwardSum, bounded};

use crate::ends;

// x, but the largest number for what is not below it, and +0 for either zero.
fn bounded(x: f64) -> f64
    ensures { result ≡ bounded x }
{
    ends::lower(1.7976931348623157e308, x) + 0.0
}

// The pattern of the next number up, if `up`; otherwise b. b is no pattern of -0 or a NaN, nor of +infinity.
fn toward(b: u64, up: bool) -> u64
    requires { (b < 0x7ff0_0000_0000_0000 ⊎ 0x8000_0000_0000_0000 < b) × (b ≤ 0xfff0_0000_0000_0000) }
    ensures { result ≡ cond up (up_bits binary64 b) b }
{
    if up {
        return b + 1 - 2 * (b >> 63);
    }
    b
}

// The least number above x, if `up`; otherwise x.
fn step_if(x: f64, up: bool) -> f64
    ensures { result ≡ cond up (next_up binary64 (bounded x)) (bounded x) }
{
    f64::from_bits(toward(f64::to_bits(bounded(x)), up))
}

// The least number above x.
pub(crate) fn step(x: f64) -> f64
    ensures { result ≡ next_up binary64 (bounded x) }
{
    step_if(x, true)
}

// The smallest f64 that is not below the exact x + y, with either zero. Where the rounded sum is below it,
// one of two differences shows that, and the answer is the number after.
pub(crate) fn sum(x: f64, y: f64) -> f64
    ensures { (a : ℕ) → a ≤ 997 → Number a x → Number a y → UpwardSum x y result }
{
    let r = x + y;
    let p = r - x;
    let q = r - y;
    step_if(r, (p < y) | (q < x))
}
