// The return lane.
ghost use Rattle.std.specs.Prelude.{◌≡◌, true};
ghost use Rattle.curve.specs.Form.{slices, well_formed};
ghost use Rattle.return_lane.specs.Return.{return_of, used_by};
ghost use Rattle.pamitoye.specs.Choices.{passed_curve};

use crate::curves;

// The curve driven back: `return_lane::return_lane`.
#[unsafe(no_mangle)]
pub extern "C" fn pamitoye_return_lane(
    d: usize,
    k: usize,
    axes: &[usize; 16],
    start: f64,
    end: f64,
    clamp: bool,
    segments: usize,
    other_segments: usize,
    breaks: &[f64],
    coefficients: &[f64],
    other_breaks: &[f64],
    other_coefficients: &[f64],
    lent_breaks: &mut [f64],
    lent_coefficients: &mut [f64],
    lent_other_breaks: &mut [f64],
    lent_other_coefficients: &mut [f64],
) -> u64
    ensures value { result ≡ (return_of (passed_curve d k axes.now start end clamp segments other_segments) (slices
        breaks.now coefficients.now other_breaks.now other_coefficients.now)
        (slices lent_breaks.old lent_coefficients.old lent_other_breaks.old
        lent_other_coefficients.old)).number }
    ensures lent_other_coefficients_after { slices lent_breaks.new lent_coefficients.new lent_other_breaks.new
        lent_other_coefficients.new ≡ (return_of (passed_curve d k axes.now start end clamp segments
        other_segments) (slices breaks.now coefficients.now other_breaks.now
        other_coefficients.now) (slices lent_breaks.old lent_coefficients.old
        lent_other_breaks.old lent_other_coefficients.old)).after }
    ensures lent_other_coefficients_after_2 { result ≡ 0 → well_formed (passed_curve d k axes.now start end clamp segments other_segments) (used_by
        (slices breaks.now coefficients.now other_breaks.now other_coefficients.now)
        (slices lent_breaks.new lent_coefficients.new lent_other_breaks.new
        lent_other_coefficients.new)) ≡ true }
{
    return_lane::number(return_lane::return_lane(
        curves::curve(d, k, axes, start, end, clamp, segments, other_segments),
        breaks,
        coefficients,
        other_breaks,
        other_coefficients,
        lent_breaks,
        lent_coefficients,
        lent_other_breaks,
        lent_other_coefficients,
    ))
}
