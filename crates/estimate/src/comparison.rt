// Whether the figure of an intersection is above the largest so far.
ghost use Rattle.std.specs.Prelude.{true, ◌≡◌};
ghost use Rattle.figure.specs.Figure.{six_figure};
ghost use Rattle.figure.specs.Intersection.{difference_bernstein};
ghost use Rattle.figure.specs.Operations.{ends};
ghost use Rattle.estimate.specs.Measure.{NotAbove};
ghost use Rattle.estimate.specs.Structs.{intersection_of};

use crate::intersection::Intersection;
use crate::{plain, sizes};

// Whether the figure is known to be at most `so_far`, without the pairs of ends: the largest Bernstein coefficient
// in plain floats, and 2^-38 of the numbers' size for all that the roundings cost. No more than that is known
// where the answer is no.
pub fn not_above(x: Intersection, so_far: f64) -> bool
    ensures { result ≡ true → NotAbove (six_figure (difference_bernstein ends (intersection_of x))) so_far }
{
    if !sizes::measured(x) {
        return false;
    }
    let cost = sizes::size_of(x) * 3.637978807091713e-12;
    plain::largest(plain::coefficients(x)) + cost <= so_far
}
