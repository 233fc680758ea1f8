// A whole request. Beside its number the answer goes back as the report's counts, the worst ratio that 14
// carries, and the curve's axes, start and end.
ghost use Rattle.std.specs.Prelude.{◌≡◌};
ghost use Rattle.smoothing.specs.Answer.{number_of};
ghost use Rattle.building.specs.Outcome.{outcome_of, reported, results};
ghost use Rattle.pamitoye.specs.Choices.{chosen_mode};
ghost use Rattle.pamitoye.specs.Builds.{requested, report_counts, counts_after, ratio_after, outline, outline_after};
ghost use Rattle.pamitoye.specs.Builds.{build_outputs, build_outputs_after, FormedCurve};

use crate::choices;
use building::{Answer, Limits, Report, Request};
use curve::Curve;

// The report's counts.
fn put_counts(report: Report, counts: &mut [usize; 5])
    ensures { counts.new ≡ report_counts report }
{
    *counts = [
        report.segments,
        report.interpolated_segments,
        report.refinements,
        report.fitting_rows,
        report.checked_intervals,
    ];
}

// What the answer holds beside its number.
fn put_answer(answer: Answer, counts: &mut [usize; 5], ratio: &mut f64)
    ensures counts_after { counts.new ≡ counts_after (outcome_of answer) counts.old }
    ensures ratio_after { ratio.new ≡ ratio_after (outcome_of answer) ratio.old }
{
    match answer {
        Answer::Accepted(report) => put_counts(report, counts),
        Answer::RefinementsUsedUp(x) => {
            *ratio = x;
        }
        _ => {}
    }
}

// The curve's axes, start and end, where there is one.
fn put_curve(
    number: u64,
    curve: Curve,
    k: &mut usize,
    axes: &mut [usize; 16],
    start: &mut f64,
    end: &mut f64,
)
    ensures { outline k.new axes.new start.new end.new
        ≡ outline_after number curve (outline k.old axes.old start.old end.old) }
{
    if number == 0 {
        let listed = curve.axes;
        *k = curve.k;
        *axes = listed;
        *start = curve.start;
        *end = curve.end;
    }
}

// The request, built: `building::build`. An accepted one's curve is well formed in its used cells.
#[unsafe(no_mangle)]
pub extern "C" fn pamitoye_build(
    points: &[f64],
    d: usize,
    n: usize,
    all: bool,
    axis_list: &[usize],
    uniform: bool,
    tolerance: f64,
    tolerance_list: &[f64],
    spacing: u64,
    parameters: &[f64],
    max_refinements: usize,
    max_segments: usize,
    clamp: bool,
    work: &mut [f64],
    breaks: &mut [f64],
    coefficients: &mut [f64],
    other_breaks: &mut [f64],
    other_coefficients: &mut [f64],
    errors: &mut [f64],
    counts: &mut [usize; 5],
    ratio: &mut f64,
    k: &mut usize,
    axes: &mut [usize; 16],
    start: &mut f64,
    end: &mut f64,
) -> u64
    ensures value { result ≡ number_of (reported (requested d n all axis_list.now uniform tolerance
        tolerance_list.now spacing parameters.now points.now max_refinements max_segments
        work.old (results breaks.old coefficients.old other_breaks.old
        other_coefficients.old errors.old))) }
    ensures end_after { build_outputs work.new (results breaks.new coefficients.new
        other_breaks.new other_coefficients.new errors.new) counts.new ratio.new
        (outline k.new axes.new start.new end.new)
        ≡ build_outputs_after (chosen_mode clamp) d (requested d n all axis_list.now uniform tolerance
        tolerance_list.now spacing parameters.now points.now max_refinements max_segments
        work.old (results breaks.old coefficients.old other_breaks.old
        other_coefficients.old errors.old))
        (build_outputs work.old (results breaks.old coefficients.old other_breaks.old
        other_coefficients.old errors.old) counts.old ratio.old
        (outline k.old axes.old start.old end.old)) }
    ensures formed_curve { result ≡ 0 → FormedCurve d clamp (build_outputs work.new (results breaks.new coefficients.new
        other_breaks.new other_coefficients.new errors.new) counts.new ratio.new
        (outline k.new axes.new start.new end.new)) }
{
    let r = Request {
        points,
        d,
        n,
        axes: choices::axes_of(all, axis_list),
        tolerance: choices::tolerance_of(uniform, tolerance, tolerance_list),
        spacing: choices::spacing_of(spacing),
        parameters,
        limits: Limits {
            refinements: max_refinements,
            segments: max_segments,
        },
    };
    let built = building::build(
        &r,
        choices::mode_of(clamp),
        work,
        breaks,
        coefficients,
        other_breaks,
        other_coefficients,
        errors,
    );
    let answer = built.answer;
    let number = building::number(answer);
    put_answer(answer, counts, ratio);
    put_curve(number, built.curve, k, axes, start, end);
    number
}
