// The heights of an axis in a lent slice. "Checks: 24, axis not below d 3, 19, then 28".
ghost use Rattle.std.specs.Prelude.{◌≡◌, true, ◌+◌, ◌*◌, ◌≤◌, ◌<◌, length};
ghost use Rattle.window.specs.Rows.{written};
ghost use Rattle.curve.specs.Form.{slices};
ghost use Rattle.heights.specs.Weights.{weight_table};
ghost use Rattle.heights.specs.Controls.{all_fit};
ghost use Rattle.heights.specs.Sets.{set_with, Sized};
ghost use Rattle.heights.specs.Heights.{number_of, outcome, axis_set, all_heights, heights_in, heights_of, EachWithinHalf};

use crate::{controls, steps, weights};
use curve::{Curve, form, place};

// Why no height is written.
#[derive(Clone, Copy, Debug, PartialEq, Eq)]
pub enum Refusal {
    // 24: the curve is not well formed
    Malformed,
    // 3: the axis is not below d
    NoSuchAxis,
    // 19: the slice is too short
    TooShort,
    // 28: a control, times 100, is not finite or beyond ±2,000,000
    HeightTooLarge,
}

// An answer's number in the papers, 0 where the heights are written.
pub fn number(answer: Result<(), Refusal>) -> u64
    ensures { result ≡ number_of answer }
{
    match answer {
        Ok(()) => 0,
        Err(Refusal::Malformed) => 24,
        Err(Refusal::NoSuchAxis) => 3,
        Err(Refusal::TooShort) => 19,
        Err(Refusal::HeightTooLarge) => 28,
    }
}

// Whether no control of the n segments is turned away by 28.
fn all_fit(breaks: &[f64], coefficients: &[f64], n: usize, m: usize, at: usize) -> bool
    requires { Sized n m at breaks.now coefficients.now }
    ensures { result ≡ all_fit (set_with breaks.now coefficients.now n m at) }
{
    for i in 0..n {
        if controls::on_segment(breaks, coefficients, m, at, i).is_none() {
            return false;
        }
    }
    true
}

// The heights of the n segments, 257 to each.
fn put_segments(
    weights: &[u64],
    breaks: &[f64],
    coefficients: &[f64],
    n: usize,
    m: usize,
    at: usize,
    out: &mut [i32],
)
    requires { Sized n m at breaks.now coefficients.now × (weights.now ≡ weight_table) × (257 * n ≤ length out.old)
        × (all_fit (set_with breaks.now coefficients.now n m at) ≡ true) }
    ensures { out.new ≡ written 0 (all_heights (set_with breaks.now coefficients.now n m at))
        out.old }
{
    for i in 0..n {
        let cells = controls::on_segment(breaks, coefficients, m, at, i).unwrap();
        let from = 257 * i;
        let to = from + 257;
        steps::put_steps(weights, &cells, &mut out[from..to]);
    }
}

// The heights of the axis at a place of the m axes of a set of n segments.
fn in_set(
    breaks: &[f64],
    coefficients: &[f64],
    n: usize,
    m: usize,
    at: usize,
    out: &mut [i32],
) -> Result<(), Refusal>
    requires { Sized n m at breaks.now coefficients.now }
    ensures { outcome (number_of result) out.new ≡ heights_in (set_with breaks.now coefficients.now n m at)
        out.old }
{
    if out.len() < 257 * n {
        return Err(Refusal::TooShort);
    }
    if !all_fit(breaks, coefficients, n, m, at) {
        return Err(Refusal::HeightTooLarge);
    }
    let weights = weights::weight_table();
    put_segments(&weights, breaks, coefficients, n, m, at, out);
    Ok(())
}

// The heights of an axis, 257 to each segment of its set, to the first cells of `out`, in hundredths. The
// curve stands in four slices beside it. Each height is within half a hundredth of the exact polynomial of
// the segment's whole controls.
pub fn heights(
    curve: Curve,
    breaks: &[f64],
    coefficients: &[f64],
    other_breaks: &[f64],
    other_coefficients: &[f64],
    axis: usize,
    out: &mut [i32],
) -> Result<(), Refusal>
    ensures out_after { outcome (number_of result) out.new ≡ heights_of curve (slices breaks.now coefficients.now
        other_breaks.now other_coefficients.now) axis out.old }
    ensures each_within_half { EachWithinHalf (axis_set curve (slices breaks.now coefficients.now other_breaks.now
        other_coefficients.now) axis) (outcome (number_of result) out.new) }
{
    if !form::well_formed(
        curve,
        breaks,
        coefficients,
        other_breaks,
        other_coefficients,
    ) {
        return Err(Refusal::Malformed);
    }
    let d = curve.d;
    if d <= axis {
        return Err(Refusal::NoSuchAxis);
    }
    let k = curve.k;
    let axes = curve.axes;
    let at = place::axis_place(&axes, k, axis);
    if at < k {
        in_set(breaks, coefficients, curve.segments, k, at, out)
    } else {
        in_set(
            other_breaks,
            other_coefficients,
            curve.other_segments,
            d - k,
            at - k,
            out,
        )
    }
}
