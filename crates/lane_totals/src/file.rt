// What a lane file adds to the totals.
ghost use Rattle.std.specs.Prelude.{true, ◌≡◌, ◌/◌, length};
ghost use Rattle.curve.specs.Form.{well_formed};
ghost use Rattle.lane_file.specs.Curves.{cells, slices_of};
ghost use Rattle.lane_file.specs.Outcome.{used_cells};
ghost use Rattle.heights.specs.Weights.{weight_table};
ghost use Rattle.lane_totals.specs.Lanes.{curve_totals, lane_totals};
ghost use Rattle.lane_totals.specs.Kept.{totals_in, Kept, Lent};

use crate::sums::Sums;
use crate::{segments, sums};
use curve::{Curve, place};

// The heights of axis 0 of a well-formed curve in the first cells of the slices; turned away by 28.
fn in_curve(
    weights: &[u64],
    curve: Curve,
    breaks: &[f64],
    coefficients: &[u64],
    other_breaks: &[f64],
    other_coefficients: &[u64],
) -> Sums
    requires other_coefficients_value { well_formed curve (slices_of (used_cells curve (cells breaks.now coefficients.now other_breaks.now
        other_coefficients.now))) ≡ true }
    requires weights_value { weights.now ≡ weight_table }
    ensures { (totals_in result ≡ curve_totals curve (slices_of (used_cells curve (cells breaks.now coefficients.now
        other_breaks.now other_coefficients.now)))) × Kept 1 20000 result }
{
    let d = curve.d;
    let k = curve.k;
    let axes = curve.axes;
    let at = place::axis_place(&axes, k, 0);
    if at < k {
        return segments::of_set(weights, breaks, coefficients, curve.segments, k, at);
    }
    segments::of_set(
        weights,
        other_breaks,
        other_coefficients,
        curve.other_segments,
        d - k,
        at - k,
    )
}

// The lane file's curve is read into the four slices, and the heights of its axis 0 are taken in, a segment
// at a time; turned away by 27, 24 or 28. Slices with an eighth as many cells as the file has bytes are
// never too short.
pub fn in_file(
    file: &[u8],
    weights: &[u64],
    breaks: &mut [f64],
    coefficients: &mut [u64],
    other_breaks: &mut [f64],
    other_coefficients: &mut [u64],
) -> Sums
    requires lent { Lent (length file.now / 8) (length breaks.old) (length coefficients.old) (length other_breaks.old)
        (length other_coefficients.old) }
    requires weights_value { weights.now ≡ weight_table }
    ensures { (totals_in result ≡ lane_totals file.now) × Kept 1 20000 result }
{
    match lane_file::read(file, breaks, coefficients, other_breaks, other_coefficients) {
        Err(_) => sums::one_away(),
        Ok(curve) => in_curve(
            weights,
            curve,
            breaks,
            coefficients,
            other_breaks,
            other_coefficients,
        ),
    }
}
