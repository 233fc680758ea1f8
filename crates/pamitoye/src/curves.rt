// A curve from the numbers that a caller passes, and whether it is well formed.
ghost use Rattle.std.specs.Prelude.{◌≡◌};
ghost use Rattle.curve.specs.Form.{slices, well_formed};
ghost use Rattle.pamitoye.specs.Choices.{passed_curve};

use crate::choices;
use curve::Curve;

// The curve of these numbers.
pub(crate) fn curve(
    d: usize,
    k: usize,
    axes: &[usize; 16],
    start: f64,
    end: f64,
    clamp: bool,
    segments: usize,
    other_segments: usize,
) -> Curve
    ensures { result ≡ passed_curve d k axes.now start end clamp segments other_segments }
{
    let listed = *axes;
    let mode = choices::mode_of(clamp);
    Curve {
        d,
        k,
        axes: listed,
        start,
        end,
        mode,
        segments,
        other_segments,
    }
}

// Whether a curve is well formed.
#[unsafe(no_mangle)]
pub extern "C" fn pamitoye_well_formed(
    d: usize,
    k: usize,
    axes: &[usize; 16],
    start: f64,
    end: f64,
    clamp: bool,
    segments: usize,
    other_segments: usize,
    breaks: &[f64],
    coefficients: &[f64],
    other_breaks: &[f64],
    other_coefficients: &[f64],
) -> bool
    ensures { result ≡ well_formed (passed_curve d k axes.now start end clamp segments other_segments) (slices
        breaks.now coefficients.now other_breaks.now other_coefficients.now) }
{
    curve::form::well_formed(
        curve(d, k, axes, start, end, clamp, segments, other_segments),
        breaks,
        coefficients,
        other_breaks,
        other_coefficients,
    )
}
