// Sizes of numbers, and how the parameters of an intersection lie. The tests are joined by `&`: none waits for
// another, and there is no branch.
ghost use Rattle.std.specs.Prelude.{true, ◌≡◌, ◌<◌, ℕ};
ghost use Rattle.window.specs.Cells.{at};
ghost use Rattle.pairs.specs.Spreads.{Number, power};
ghost use Rattle.estimate.specs.Measure.{AtMost, Long, Placed, Sized, size_of};
ghost use Rattle.estimate.specs.Structs.{intersection_of};

use crate::intersection::Intersection;
use crate::plain;

// Whether x is at most `limit` in size, which is a power of 2. A NaN is not.
pub fn within(x: f64, limit: f64) -> bool
    ensures { (a : ℕ) → result ≡ true → limit ≡ power a → Number a x }
{
    (-limit <= x) & (x <= limit)
}

// Whether each is at most 2^100 in size.
pub fn six_within(p: [f64; 6]) -> bool
    ensures { result ≡ true → (k : ℕ) → k < 6 → Number 100 (at p k) }
{
    let limit = 1.2676506002282294e30;
    within(p[0], limit)
        & within(p[1], limit)
        & within(p[2], limit)
        & within(p[3], limit)
        & within(p[4], limit)
        & within(p[5], limit)
}

// Whether coefficients and waypoints are at most 2^100 in size.
fn sized(x: Intersection) -> bool
    ensures { result ≡ true → Sized (intersection_of x) }
{
    within(x.first, 1.2676506002282294e30)
        & within(x.second, 1.2676506002282294e30)
        & six_within(x.coefficients)
}

// Whether a is at most b.
fn at_most(a: f64, b: f64) -> bool
    ensures { result ≡ true → AtMost a b }
{
    a <= b
}

// Whether the parameters are at most 2 in size, and left and right lie in the segment and in the interval.
fn placed(x: Intersection) -> bool
    ensures { result ≡ true → Placed (intersection_of x) }
{
    at_most(-2.0, x.start)
        & at_most(x.end, 2.0)
        & at_most(-2.0, x.from)
        & at_most(x.to, 2.0)
        & at_most(x.start, x.left)
        & at_most(x.left, x.right)
        & at_most(x.right, x.end)
        & at_most(x.from, x.left)
        & at_most(x.right, x.to)
}

// Whether segment and interval are at least 2^-60 long.
fn long(x: Intersection) -> bool
    ensures { result ≡ true → Long (intersection_of x) }
{
    at_most(8.673617379884035e-19, x.end - x.start) & at_most(8.673617379884035e-19, x.to - x.from)
}

// All of these.
pub(crate) fn measured(x: Intersection) -> bool
    ensures { result ≡ true → Sized (intersection_of x) × Placed (intersection_of x) × Long (intersection_of x) }
{
    sized(x) & placed(x) & long(x)
}

// A bound of the sizes of coefficients and waypoints: the largest of them, and at least 2^-400.
pub(crate) fn size_of(x: Intersection) -> f64
    ensures { result ≡ size_of (intersection_of x) }
{
    let p = x.coefficients;
    let m0 = plain::larger(3.8725919148493183e-121, x.first);
    let m1 = plain::larger(m0, x.second);
    let m2 = plain::larger(m1, p[0]);
    let m3 = plain::larger(m2, p[1]);
    let m4 = plain::larger(m3, p[2]);
    let m5 = plain::larger(m4, p[3]);
    let m6 = plain::larger(m5, p[4]);
    plain::larger(m6, p[5])
}
