// The knots around the anchors: three around each inner one, sorted, and thinned.
ghost use Rattle.std.specs.Prelude.{◌≡◌, ◌++◌, ◌+◌, ◌*◌, ◌≤◌, ◌<◌, length, drop};
ghost use Rattle.sorting.specs.Sort.{sort_of};
ghost use Rattle.sorting.specs.Thin.{kept_of};
ghost use Rattle.window.specs.Rows.{written};
ghost use Rattle.seed.specs.Anchors.{next_anchor};
ghost use Rattle.seed.specs.Knots.{jump_of, width_of, around, raw_knots, seed_of};
ghost use Rattle.seed.specs.Placed.{WaypointsLaid, parameters_at, points_at, seeded_cells};

use crate::Waypoints;
use crate::corridor::{next_anchor, slope};

// The largest change of slope at the waypoint b, from a and to c, over all axes.
fn jump(s: &[f64], y: &[f64], d: usize, a: usize, b: usize, c: usize) -> f64
    requires { (length s.now * d ≤ length y.now) × (a < length s.now) × (b < length s.now) × (c < length s.now) }
    ensures { result ≡ jump_of s.now y.now d a b c }
{
    let h0 = s[b] - s[a];
    let h1 = s[c] - s[b];
    let first = a * d;
    let second = b * d;
    let third = c * d;
    let mut jump = 0.0;
    for j in 0..d {
        let after = slope(y, second + j, third + j, h1);
        let before = slope(y, first + j, second + j, h0);
        jump = float::max(jump, float::abs(after - before));
    }
    jump
}

// How far the outer knots lie from the anchor.
fn width(h0: f64, h1: f64, jump: f64) -> f64
    ensures { result ≡ width_of h0 h1 jump }
{
    float::min(0.45 * float::min(h0, h1), 0.35 / ((35.0 / 256.0) * jump))
}

// The three knots around the anchor b, between the anchors a and c.
fn knots_around(s: &[f64], y: &[f64], d: usize, a: usize, b: usize, c: usize) -> [f64; 3]
    requires { (length s.now * d ≤ length y.now) × (a < length s.now) × (b < length s.now) × (c < length s.now) }
    ensures { result ≡ around s.now y.now d a b c }
{
    let middle = s[b];
    let w = width(middle - s[a], s[c] - middle, jump(s, y, d, a, b, c));
    [middle - w, middle, middle + w]
}

// The anchor after the waypoint `anchor`.
fn anchor_after(work: &[f64], p: Waypoints, anchor: usize) -> usize
    requires { WaypointsLaid p (length work.now) × (anchor < p.samples) }
    ensures { result ≡ next_anchor (parameters_at p work.now) (points_at p work.now) p.axes anchor }
{
    let s = p.parameters;
    let s_end = s + p.samples;
    let y = p.points;
    let y_end = y + p.samples * p.axes;
    next_anchor(&work[s..s_end], &work[y..y_end], p.axes, anchor)
}

// The three knots around the anchor b, between the anchors a and c.
fn knots_at(work: &[f64], p: Waypoints, a: usize, b: usize, c: usize) -> [f64; 3]
    requires { WaypointsLaid p (length work.now) × (a < p.samples) × (b < p.samples) × (c < p.samples) }
    ensures { result ≡ around (parameters_at p work.now)
        (points_at p work.now) p.axes a b c }
{
    let s = p.parameters;
    let s_end = s + p.samples;
    let y = p.points;
    let y_end = y + p.samples * p.axes;
    knots_around(&work[s..s_end], &work[y..y_end], p.axes, a, b, c)
}

// The knots around all inner anchors, and how many; all other cells are unchanged.
fn raw_knots(work: &mut [f64], p: Waypoints) -> usize
    requires { WaypointsLaid p (length work.old) × (2 ≤ p.samples) × (p.knots + 3 * p.samples ≤ length work.old + 6) }
    ensures value { result ≡ length (raw_knots (parameters_at p work.old) (points_at p work.old) p.axes) }
    ensures work_after { work.new ≡ written p.knots (raw_knots (parameters_at p work.old) (points_at p work.old)
        p.axes) work.old }
{
    let last = p.samples - 1;
    let from = p.knots;
    let mut k = 0;
    let mut a = 0;
    let mut b = anchor_after(work, p, 0);
    // From anchor to anchor: no index is counted.
    while b < last {
        let c = anchor_after(work, p, b);
        let t = knots_at(work, p, a, b, c);
        work[from + k..from + k + 3].copy_from_slice(&t);
        k += 3;
        a = b;
        b = c;
    }
    k
}

// The cells sorted, and of these the ones to keep in front, and how many; the cells after these hold
// what they held when sorted.
fn settle(cells: &mut [f64]) -> usize
    ensures value { result ≡ length (kept_of (sort_of cells.old)) }
    ensures cells_after { cells.new ≡ kept_of (sort_of cells.old) ++ drop result (sort_of cells.old) }
{
    sorting::sort(cells);
    sorting::keep_apart(cells)
}

// The source's `seed`: the knots from `knots` on, and how many. The cells after them hold what was
// sorted and not kept; all others are unchanged.
pub fn seed(work: &mut [f64], p: Waypoints) -> usize
    requires { (p.axes ≤ 16) × (p.parameters + p.samples ≤ p.knots) × (p.points + p.samples * p.axes ≤ p.knots)
        × (p.knots + 3 * p.samples ≤ length work.old + 6) }
    ensures value { result ≡ length (seed_of (parameters_at p work.old) (points_at p work.old) p.axes) }
    ensures work_after { work.new ≡ written p.knots (seeded_cells (parameters_at p work.old)
        (points_at p work.old) p.axes) work.old }
{
    if p.samples < 2 {
        return 0;
    }
    let from = p.knots;
    let end = from + raw_knots(work, p);
    settle(&mut work[from..end])
}
