// The anchors that a corridor of slopes finds, one after the other.
ghost use Rattle.std.specs.Prelude.{◌≡◌, ◌&&◌, ◌+◌, ◌*◌, ◌≤◌, ◌<◌, length, take};
ghost use Rattle.std.specs.Float.Ieee.{le};
ghost use Rattle.arith.specs.Operations.{floats};
ghost use Rattle.window.specs.Cells.{at};
ghost use Rattle.seed.specs.Corridor.{corridor, narrowed};
ghost use Rattle.seed.specs.Anchors.{next_anchor};

// The least and the greatest slope of each axis.
#[derive(Clone, Copy)]
struct Bounds {
    lo: [f64; 16],
    hi: [f64; 16],
}

// The corridor at an anchor: every slope fits.
const OPEN: Bounds = Bounds {
    lo: [f64::NEG_INFINITY; 16],
    hi: [f64::INFINITY; 16],
};

// Whether the slope lies between the bounds. A NaN does not.
fn between(low: f64, slope: f64, high: f64) -> bool
    ensures { result ≡ (le low slope && le slope high) }
{
    low <= slope && slope <= high
}

// The slope from the cell `from` to the cell `to`, whose waypoints lie ds apart.
pub(crate) fn slope(y: &[f64], from: usize, to: usize, ds: f64) -> f64
    requires { (from < length y.now) × (to < length y.now) }
    ensures { result ≡ floats.over (floats.minus (at y.now to) (at y.now from)) ds }
{
    (y[to] - y[from]) / ds
}

// The corridor from the waypoint `anchor` is drawn in by waypoint i. Whether the slope to it lies between
// the bounds on every axis.
fn narrow(c: &mut Bounds, s: &[f64], y: &[f64], d: usize, anchor: usize, i: usize) -> bool
    requires { (d ≤ 16) × (length s.now * d ≤ length y.now) × (anchor < length s.now) × (i < length s.now) }
    ensures { corridor (take d c.new.lo) (take d c.new.hi) result ≡ narrowed s.now y.now d anchor i (take d
        c.old.lo) (take d c.old.hi) }
{
    let ds = s[i] - s[anchor];
    let from = anchor * d;
    let to = i * d;
    let mut ok = true;
    for j in 0..d {
        let slope = slope(y, from + j, to + j, ds);
        let low = float::max(c.lo[j], slope - 0.65 / ds);
        let high = float::min(c.hi[j], slope + 0.65 / ds);
        c.lo[j] = low;
        c.hi[j] = high;
        ok = between(low, slope, high) && ok;
    }
    ok
}

// The anchor after the waypoint `anchor`; the last waypoint where the corridor holds to the end. The
// first waypoint after an anchor never breaks the corridor.
pub(crate) fn next_anchor(s: &[f64], y: &[f64], d: usize, anchor: usize) -> usize
    requires { (d ≤ 16) × (length s.now * d ≤ length y.now) × (anchor < length s.now) }
    ensures { result ≡ next_anchor s.now y.now d anchor }
{
    let mut c = OPEN;
    for i in anchor + 1..s.len() {
        let ok = narrow(&mut c, s, y, d, anchor, i);
        if !ok && 1 < i - anchor {
            return i - 1;
        }
    }
    s.len() - 1
}
