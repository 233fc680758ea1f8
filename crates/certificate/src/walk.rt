// The walk over both lists, the waypoint intervals and the segments of an axis. Both rise from 0 to 1,
// so each step goes on to the next segment or to the next interval, and every intersection is met. The
// parameter where the interval ends goes along.
ghost use Rattle.std.specs.Prelude.{cond, ◌≡◌, ◌*◌, ◌+◌, ◌-◌, ◌<◌, ◌≤◌, drop, length, take};
ghost use Rattle.std.specs.Float.Ieee.{lt};
ghost use Rattle.window.specs.Cells.{at};
ghost use Rattle.request.specs.declared.parameters.Spacing.TheVariants.{Listed};
ghost use Rattle.request.specs.Parameters.{length_of, normalised_of, parameter_list};
ghost use Rattle.figure.specs.Axis.{axis_of};
ghost use Rattle.figure.specs.Distance.{Rises};
ghost use Rattle.figure.specs.Figure.{figure_of, intersection_figure, larger, meeting};
ghost use Rattle.estimate.specs.Structs.{intersection_of};
ghost use Rattle.certificate.specs.Structs.{figure_in};

use crate::halving;
use estimate::intersection::Intersection;
use pairs::ends;
use request::parameters;
use request::parameters::Spacing;

// The six coefficients from a cell on.
fn six(coefficients: &[f64], from: usize) -> [f64; 6]
    requires { from + 6 ≤ length coefficients.now }
    ensures { result ≡ take 6 (drop from coefficients.now) }
{
    [
        coefficients[from],
        coefficients[from + 1],
        coefficients[from + 2],
        coefficients[from + 3],
        coefficients[from + 4],
        coefficients[from + 5],
    ]
}

// Interval i, which lies between the two parameters, with segment m.
fn intersect(
    breaks: &[f64],
    coefficients: &[f64],
    k: usize,
    place: usize,
    points: &[f64],
    d: usize,
    axis: usize,
    i: usize,
    m: usize,
    from: f64,
    to: f64,
) -> Intersection
    requires { (m + 1 < length breaks.now) × (place < k) × (6 * (m * k + k) ≤ length coefficients.now) × (axis < d) × (i < 20000)
        × ((i + 1) * d + d ≤ length points.now) }
    ensures { intersection_of result ≡ meeting (at breaks.now m) (at breaks.now (m + 1))
        (at (take 6 (drop (6 * (m * k + place)) coefficients.now)))
        from to (at points.now (i * d + axis)) (at points.now ((i + 1) * d + axis)) }
{
    Intersection {
        start: breaks[m],
        end: breaks[m + 1],
        coefficients: six(coefficients, 6 * (m * k + place)),
        left: ends::higher(breaks[m], from),
        right: ends::lower(breaks[m + 1], to),
        from,
        to,
        first: points[i * d + axis],
        second: points[(i + 1) * d + axis],
    }
}

// The largest so far with that of an intersection, if "left below right".
fn with_intersection(depth: usize, x: Intersection, so_far: Option<f64>) -> Option<f64>
    ensures { figure_in result ≡ cond (lt x.left x.right) (larger (figure_in so_far) (intersection_figure depth (intersection_of x)))
        (figure_in so_far) }
{
    if x.left < x.right {
        return halving::with_figure(depth, x, so_far);
    }
    so_far
}

// The certified figure of an axis. `range` is the last parameter less the first.
pub(crate) fn walk(
    breaks: &[f64],
    coefficients: &[f64],
    k: usize,
    place: usize,
    points: &[f64],
    d: usize,
    axis: usize,
    n: usize,
    spacing: Spacing,
    parameters: &[f64],
    range: f64,
    depth: usize,
) -> Option<f64>
    requires place_lt_k { (place < k) × (k ≤ 16) × (2 ≤ length breaks.now) × (length breaks.now ≤ 20001)
        × (6 * ((length breaks.now - 1) * k) ≤ length coefficients.now)
        × (axis < d) × (d ≤ 16) × (2 ≤ n) × (n ≤ 20000) × (length points.now ≡ d * n) × (spacing ≡ Listed → length parameters.now ≡ n) }
    requires rises { Rises (length breaks.now - 1) (at breaks.now) × Rises (n - 1) (normalised_of (parameter_list spacing parameters.now
        points.now d n) n) }
    requires range_value { range ≡ length_of (parameter_list spacing parameters.now points.now d n) n }
    ensures { figure_in result ≡ figure_of depth (axis_of breaks.now coefficients.now k place points.now d
        axis n spacing parameters.now) }
{
    let mut so_far = Some(0.0);
    let mut i = 0;
    let mut m = 0;
    let start = parameters::first(spacing, parameters, n);
    let mut current = parameters::next(spacing, parameters, points, d, n, 0, start);
    let mut from = (start - start) / range;
    let mut to = (current - start) / range;
    // Two places, of which one or the other moves on in each turn.
    while i < n - 1 {
        let x = intersect(
            breaks,
            coefficients,
            k,
            place,
            points,
            d,
            axis,
            i,
            m,
            from,
            to,
        );
        so_far = with_intersection(depth, x, so_far);
        if breaks[m + 1] < to {
            m += 1;
        } else {
            i += 1;
            from = to;
            current = parameters::next(spacing, parameters, points, d, n, i, current);
            to = (current - start) / range;
        }
    }
    so_far
}
