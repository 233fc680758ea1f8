// The points of a request.
ghost use Rattle.std.specs.Prelude.{not, ◌≡◌, length};
ghost use Rattle.std.specs.Float.Ieee.Scale.{finite};
ghost use Rattle.window.specs.Cells.{at};
ghost use Rattle.request.specs.Any.{any};
ghost use Rattle.request.specs.Points.{unfit};

// Whether a cell is infinite or a NaN.
fn not_finite(points: &[f64]) -> bool
    ensures { result ≡ any (length points.now) (λ i. not (finite (at points.now i))) }
{
    points.iter().any(|x| !float::is_finite(*x))
}

// Whether the points of n waypoints with d rows each are refused (1).
#[tactic(auto, unfolding(crate::specs::Points::unfit))]
pub fn unfit(d: usize, n: usize, points: &[f64]) -> bool
    ensures { result ≡ unfit d n points.now }
{
    d == 0 || n < 2 || not_finite(points)
}
