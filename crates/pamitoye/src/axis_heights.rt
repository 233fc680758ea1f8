// The heights of an axis.
ghost use Rattle.std.specs.Prelude.{◌≡◌};
ghost use Rattle.curve.specs.Form.{slices};
ghost use Rattle.heights.specs.Heights.{outcome, axis_set, heights_of, EachWithinHalf};
ghost use Rattle.pamitoye.specs.Choices.{passed_curve};

use crate::curves;

// The heights of an axis in whole hundredths, 257 to each segment of its set: `heights::heights`.
#[unsafe(no_mangle)]
pub extern "C" fn pamitoye_heights(
    d: usize,
    k: usize,
    axes: &[usize; 16],
    start: f64,
    end: f64,
    clamp: bool,
    segments: usize,
    other_segments: usize,
    breaks: &[f64],
    coefficients: &[f64],
    other_breaks: &[f64],
    other_coefficients: &[f64],
    axis: usize,
    out: &mut [i32],
) -> u64
    ensures out_after { outcome result out.new ≡ heights_of (passed_curve d k axes.now start end clamp segments
        other_segments) (slices breaks.now coefficients.now other_breaks.now
        other_coefficients.now) axis out.old }
    ensures each_within_half { EachWithinHalf (axis_set (passed_curve d k axes.now start end clamp segments other_segments) (slices
        breaks.now coefficients.now other_breaks.now other_coefficients.now) axis)
        (outcome result out.new) }
{
    heights::number(heights::heights(
        curves::curve(d, k, axes, start, end, clamp, segments, other_segments),
        breaks,
        coefficients,
        other_breaks,
        other_coefficients,
        axis,
        out,
    ))
}
