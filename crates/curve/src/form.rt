// Whether a curve is well formed, and one that is not.
ghost use Rattle.std.specs.Prelude.{◌≡◌, ◌&&◌, ◌+◌, ◌-◌, ◌*◌, ◌≤◌, ◌<◌, eqb, length};
ghost use Rattle.std.specs.Float.{binary64};
ghost use Rattle.std.specs.Float.Ieee.{lt, sub, to_bits};
ghost use Rattle.curve.specs.Form.{slices, axes_formed, segments_formed, set_shaped, others_shaped, range_formed, well_shaped, well_formed, no_curve};

use crate::count::one_if;
use crate::place::position;
use crate::{Curve, Mode};

// Whether the first k axes are distinct and below d.
pub fn axes_formed(axes: &[usize; 16], k: usize, d: usize) -> bool
    requires { k ≤ 16 }
    ensures { result ≡ axes_formed axes.now k d }
{
    for i in 0..k {
        let a = axes[i];
        if d <= a || position(axes, i, a) < i {
            return false;
        }
    }
    true
}

// Whether `to` is above `from`, and `width` has the bits of their difference: it is above 0 where they
// rise and nowhere else, and no other number equals it.
pub fn is_width(width: f64, from: f64, to: f64) -> bool
    ensures { result ≡ (lt from to && eqb (to_bits binary64 width) (to_bits binary64 (sub binary64 to from))) }
{
    width == to - from && 0.0 < width
}

// Whether the breaks of n segments rise and their widths are kept from the cell `from` on: segments of
// which both hold are counted, since a loop that may end early is not vectorised.
fn segments_formed(breaks: &[f64], cells: &[f64], from: usize, n: usize) -> bool
    requires { (n ≤ length breaks.now - 1) × (from + n ≤ length cells.now) }
    ensures { result ≡ segments_formed from n breaks.now cells.now }
{
    let mut kept = 0;
    for i in 0..n {
        kept += one_if(is_width(cells[from + i], breaks[i], breaks[i + 1]));
    }
    kept == n
}

// Whether n segments with m axes each, in so many cells, are well formed, whatever each segment has.
fn set_shaped(m: usize, n: usize, breaks: &[f64], cells: usize) -> bool
    requires { m ≤ 16 }
    ensures { result ≡ set_shaped m n breaks.now cells }
{
    1 <= n
        && n <= 20000
        && breaks.len() == n + 1
        && cells == 6 * (n * m) + n
        && breaks[0] == 0.0
        && breaks[n] == 1.0
}

// The same of the n segments of the m other axes; of no axes there are none.
fn others_shaped(m: usize, n: usize, breaks: &[f64], cells: usize) -> bool
    requires { m ≤ 16 }
    ensures { result ≡ others_shaped m n breaks.now cells }
{
    if m == 0 {
        n == 0 && breaks.is_empty() && cells == 0
    } else {
        set_shaped(m, n, breaks, cells)
    }
}

// Whether the parameters from start to end are well formed.
#[tactic(auto, unfolding(crate::specs::Form::range_formed))]
pub fn range_formed(start: f64, end: f64) -> bool
    ensures { result ≡ range_formed start end }
{
    let length = end - start;
    float::is_finite(start) && float::is_finite(end) && float::is_finite(length) && 0.0 < length
}

// Whether the curve with these breaks and so many cells of the selected axes, and these of the other axes,
// is well formed, whatever each segment has.
#[tactic(auto, unfolding(crate::specs::Form::well_shaped))]
pub fn well_shaped(
    curve: Curve,
    breaks: &[f64],
    cells: usize,
    other_breaks: &[f64],
    other_cells: usize,
) -> bool
    ensures { result ≡ well_shaped curve breaks.now cells other_breaks.now other_cells }
{
    let d = curve.d;
    let k = curve.k;
    1 <= d
        && d <= 16
        && 1 <= k
        && k <= d
        && axes_formed(&curve.axes, k, d)
        && set_shaped(k, curve.segments, breaks, cells)
        && others_shaped(d - k, curve.other_segments, other_breaks, other_cells)
        && range_formed(curve.start, curve.end)
}

// Whether the curve with these breaks and coefficients of the selected axes, and these of the other
// axes, is well formed.
pub fn well_formed(
    curve: Curve,
    breaks: &[f64],
    coefficients: &[f64],
    other_breaks: &[f64],
    other_coefficients: &[f64],
) -> bool
    ensures { result ≡ well_formed curve (slices breaks.now coefficients.now other_breaks.now
        other_coefficients.now) }
{
    let n = curve.segments;
    let others = curve.other_segments;
    let k = curve.k;
    let d = curve.d;
    if !well_shaped(
        curve,
        breaks,
        coefficients.len(),
        other_breaks,
        other_coefficients.len(),
    ) {
        return false;
    }
    segments_formed(breaks, coefficients, 6 * (n * k), n)
        && segments_formed(
            other_breaks,
            other_coefficients,
            6 * (others * (d - k)),
            others,
        )
}

// The curve beside a refusal: without axes, so that it is not well formed.
#[tactic(auto, unfolding(crate::specs::Form::no_curve))]
pub fn no_curve(mode: Mode) -> Curve
    ensures { result ≡ no_curve mode }
{
    Curve {
        d: 0,
        k: 0,
        axes: [0; 16],
        start: 0.0,
        end: 0.0,
        mode,
        segments: 0,
        other_segments: 0,
    }
}
