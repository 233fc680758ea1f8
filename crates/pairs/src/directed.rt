// Sums rounded downward and upward: document 02, request 7.
ghost use Rattle.std.specs.Prelude.{◌≡◌};
ghost use Rattle.std.specs.Float.{binary64};
ghost use Rattle.fraction.specs.DirectedSum.{downward_sum, plain_zero, upward_sum};

use crate::neighbours;

// +0 for either zero.
fn plain(x: f64) -> f64
    ensures { result ≡ plain_zero binary64 x }
{
    if x == 0.0 {
        return 0.0;
    }
    x
}

// The largest f64 that is not above the exact x + y, with either zero. Where the rounded sum is above it,
// one of two differences shows that, and the answer is the number before. That is computed first, so that
// no branch is left, which would be hard to foresee.
fn lower_sum(x: f64, y: f64) -> f64
    ensures { plain_zero binary64 result ≡ downward_sum binary64 x y }
{
    let r = x + y;
    let p = r - x;
    let q = r - y;
    let down = neighbours::next_down(r);
    if y < p || x < q {
        return down;
    }
    r
}

// The largest f64 that is not above the exact x + y.
pub(crate) fn sum_down(x: f64, y: f64) -> f64
    ensures { result ≡ downward_sum binary64 x y }
{
    plain(lower_sum(x, y))
}

// The smallest f64 that is not below it: minus the sum downward of -x and -y.
pub(crate) fn sum_up(x: f64, y: f64) -> f64
    ensures { result ≡ upward_sum binary64 x y }
{
    plain(-lower_sum(-x, -y))
}
