// The axes and the tolerances that a request chooses, in arrays of sixteen cells.
ghost use Rattle.std.specs.Prelude.{◌≡◌, ◌≤◌, length, take};
ghost use Rattle.smoothing.specs.Rows.{left_over};
ghost use Rattle.curve.specs.Places.{padded};
ghost use Rattle.smoothing.specs.Request.{up_to};
ghost use Rattle.checks.specs.Request.{axes_in, tolerances_in};

use crate::{Axes, Tolerance};
use curve::place::position;

// Up to 16 axes: the first `count` cells; the others are 0.
#[derive(Clone, Copy)]
pub struct AxisList {
    pub axes: [usize; 16],
    pub count: usize,
    ghost few: { count ≤ 16 },
}

// How many of d axes are smoothed.
pub fn count_of(axes: Axes, d: usize) -> usize
    ensures { result ≡ length (axes_in axes.entry d) }
{
    match axes {
        Axes::All => d,
        Axes::Listed(list) => list.len(),
    }
}

// All axes below d.
fn all(d: usize) -> AxisList
    requires { d ≤ 16 }
    ensures { (result.count ≡ d) × (result.axes ≡ padded (up_to d)) }
{
    let mut axes = [0; 16];
    for a in 0..d {
        axes[a] = a;
    }
    AxisList { axes, count: d }
}

// Those of a list.
fn listed(list: &[usize]) -> AxisList
    requires { length list.now ≤ 16 }
    ensures { (result.count ≡ length list.now) × (result.axes ≡ padded list.now) }
{
    let count = list.len();
    let mut axes = [0; 16];
    axes[..count].copy_from_slice(list);
    AxisList { axes, count }
}

// The smoothed axes, of d.
pub fn chosen(axes: Axes, d: usize) -> AxisList
    requires { length (axes_in axes d) ≤ 16 }
    ensures { (result.count ≡ length (axes_in axes.entry d)) × (result.axes ≡ padded (axes_in axes.entry d)) }
{
    match axes {
        Axes::All => all(d),
        Axes::Listed(list) => listed(list),
    }
}

// The tolerances of k axes.
pub fn tolerances_of(tolerance: Tolerance, k: usize) -> [f64; 16]
    requires { (k ≤ 16) × (length (tolerances_in tolerance k) ≡ k) }
    ensures { take k result ≡ tolerances_in tolerance.entry k }
{
    match tolerance {
        Tolerance::Uniform(x) => [x; 16],
        Tolerance::PerAxis(list) => {
            let mut cells = [0.0; 16];
            cells[..k].copy_from_slice(list);
            cells
        }
    }
}

// The axes below d that are none of those chosen.
pub fn others(chosen: &AxisList, d: usize) -> AxisList
    requires { d ≤ 16 }
    ensures { (result.count ≡ length (left_over (take chosen.now.count chosen.now.axes) d))
        × (result.axes ≡ padded (left_over (take chosen.now.count chosen.now.axes) d)) }
{
    let mut cells = [0; 16];
    let mut count = 0;
    for a in 0..d {
        if chosen.count <= position(&chosen.axes, chosen.count, a) {
            cells[count] = a;
            count += 1;
        }
    }
    AxisList { axes: cells, count }
}
