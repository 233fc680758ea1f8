// Where the arrays of `build` lie in the lent work slice (specs/Memory). Each has a place that depends on the
// room and on the number of axes alone, so that nothing moves as knots are added.
ghost use Rattle.std.specs.Prelude.{◌≡◌, ◌*◌, ◌≤◌, length};
ghost use Rattle.refinement.specs.Memory.{spline_of, Roomy, memory_at, locations_at};

use bspline::Spline;

// `axes` smoothed axes, `samples` waypoints, room for `room` of each, and `count` controls.
#[derive(Clone, Copy)]
pub struct Plan {
    pub axes: usize,
    pub samples: usize,
    pub room: usize,
    pub count: usize,
}

// Room for a cell of each axis.
pub fn block_of(p: Plan) -> usize
    requires { (p.room ≤ 20016) × (p.axes ≤ 16) }
    ensures { (result ≡ p.room * p.axes) × (result ≤ 320256) }
{
    p.room * p.axes
}

// The spline, as `bspline` takes it.
pub fn spline_of(p: Plan) -> Spline
    requires { (p.room ≤ 20016) × (p.axes ≤ 16) }
    ensures { result ≡ spline_of p }
{
    let e = p.room;
    let b = block_of(p);
    Spline {
        knots: e + b,
        controls: 2 * e + b,
        count: p.count,
        axes: p.axes,
    }
}

// The knots.
pub fn knots(work: &[f64], p: Plan) -> &[f64]
    requires { Roomy p (length work.now) }
    ensures { result.now ≡ (memory_at p work.now).t }
{
    let from = p.room + p.room * p.axes;
    let to = from + (p.count + 6);
    &work[from..to]
}

// The bounds of all intervals.
pub fn bounds(work: &[f64], p: Plan) -> &[f64]
    requires { Roomy p (length work.now) }
    ensures { result.now ≡ (memory_at p work.now).bounds }
{
    let from = 2 * p.room + 2 * (p.room * p.axes);
    let to = from + (p.samples - 1) * p.axes;
    &work[from..to]
}

// The first `count` locations.
pub fn locations(work: &[f64], p: Plan, count: usize) -> &[f64]
    requires { Roomy p (length work.now) × (count ≤ 3 * p.room) }
    ensures { result.now ≡ locations_at p count work.now }
{
    let from = 3 * p.room + 3 * (p.room * p.axes);
    let to = from + count;
    &work[from..to]
}
