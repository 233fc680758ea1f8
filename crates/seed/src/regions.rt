// The windows of controls that new knots affect, merged, one after the other.
ghost use Rattle.std.specs.Prelude.{◌≡◌, ◌∷◌, ◌≤◌, ◌<◌, length, drop};
ghost use Rattle.seed.specs.Regions.{range, range_of, regions_of};

use std::ops::Range;

// The controls from a up to z, and the first location that belongs to a later window.
#[derive(Clone, Copy)]
pub struct Region {
    pub a: usize,
    pub z: usize,
    pub next: usize,
}

// The controls that a knot at x affects, of a spline with the knots t and m controls.
fn affected(t: &[f64], m: usize, x: f64) -> Range<usize>
    ensures { range result.start result.end ≡ range_of t.now m x }
{
    let k = bspline::search::span(t, m, x);
    k.saturating_sub(10).max(1)..k.saturating_add(6).min(m.saturating_sub(1))
}

// The first region of the locations x from `from` on, which are sorted. Called with `from` 0, and
// then with the answer's `next` until that is the number of locations, it gives the source's list.
pub fn next_region(t: &[f64], m: usize, x: &[f64], from: usize) -> Region
    requires { from < length x.now }
    ensures x_value { regions_of t.now m (drop from x.now) ≡ range result.a result.z ∷ regions_of t.now m (drop
        result.next x.now) }
    ensures from_lt_next { (from < result.next) × (result.next ≤ length x.now) }
{
    let first = affected(t, m, x[from]);
    let a = first.start;
    let mut z = first.end;
    for i in from + 1..x.len() {
        let r = affected(t, m, x[i]);
        if z < r.start.saturating_sub(5) {
            return Region { a, z, next: i };
        }
        z = z.max(r.end);
    }
    Region {
        a,
        z,
        next: x.len(),
    }
}
