// The certified figure of an axis.
ghost use Rattle.std.specs.Prelude.{◌≡◌, true};
ghost use Rattle.curve.specs.Form.{slices};
ghost use Rattle.figure.specs.Certify.{Certified, certify_of};
ghost use Rattle.certificate.specs.Outcome.{outcome_of};
ghost use Rattle.pamitoye.specs.Choices.{passed_curve, chosen_spacing};
ghost use Rattle.pamitoye.specs.Certificates.{given_after, figure_after};

use crate::{choices, curves};
use certificate::certify::Refusal;

// The number of an answer; whether there is a figure, and the figure.
fn put_figure(answer: Result<Option<f64>, Refusal>, given: &mut bool, figure: &mut f64) -> u64
    ensures value { result ≡ (outcome_of answer).number }
    ensures given_after { given.new ≡ given_after (outcome_of answer).number (outcome_of answer).certified given.old }
    ensures figure_after { figure.new ≡ figure_after (outcome_of answer).certified figure.old }
{
    match answer {
        Ok(Some(x)) => {
            *given = true;
            *figure = x;
            0
        }
        Ok(None) => {
            *given = false;
            0
        }
        Err(refusal) => refusal.number(),
    }
}

// The certified figure of a selected axis, with a depth of 0 to 6: `certificate::certify`. Where one is
// given, no point of the axis lies further from its line than that.
#[unsafe(no_mangle)]
pub extern "C" fn pamitoye_certify(
    d: usize,
    k: usize,
    axes: &[usize; 16],
    start: f64,
    end: f64,
    clamp: bool,
    segments: usize,
    other_segments: usize,
    breaks: &[f64],
    coefficients: &[f64],
    other_breaks: &[f64],
    other_coefficients: &[f64],
    points: &[f64],
    n: usize,
    spacing: u64,
    parameters: &[f64],
    axis: usize,
    depth: usize,
    given: &mut bool,
    figure: &mut f64,
) -> u64
    ensures value { result ≡ (certify_of (passed_curve d k axes.now start end clamp segments other_segments) (slices
        breaks.now coefficients.now other_breaks.now other_coefficients.now)
        points.now n (chosen_spacing spacing) parameters.now axis depth).number }
    ensures given_after { given.new ≡ given_after result (certify_of (passed_curve d k axes.now start end clamp segments
        other_segments) (slices breaks.now coefficients.now other_breaks.now
        other_coefficients.now) points.now n (chosen_spacing spacing) parameters.now axis depth
        ).certified
        given.old }
    ensures figure_after { figure.new ≡ figure_after (certify_of (passed_curve d k axes.now start end clamp segments
        other_segments) (slices breaks.now coefficients.now other_breaks.now
        other_coefficients.now) points.now n (chosen_spacing spacing) parameters.now axis depth
        ).certified
        figure.old }
    ensures certified { result ≡ 0 → given.new ≡ true → Certified (passed_curve d k axes.now start end clamp segments
        other_segments) (slices breaks.now coefficients.now other_breaks.now
        other_coefficients.now) points.now n (chosen_spacing spacing) parameters.now axis
        figure.new }
{
    let answer = certificate::certify::certify(
        curves::curve(d, k, axes, start, end, clamp, segments, other_segments),
        breaks,
        coefficients,
        other_breaks,
        other_coefficients,
        points,
        n,
        choices::spacing_of(spacing),
        parameters,
        axis,
        depth,
    );
    put_figure(answer, given, figure)
}
