// One query, and many in one call.
ghost use Rattle.std.specs.Prelude.{◌≡◌, true};
ghost use Rattle.curve.specs.Form.{slices, well_formed};
ghost use Rattle.query.specs.Row.{outputs};
ghost use Rattle.query.specs.Query.{kept_of, evaluate_of, evaluate_all_of, number_of, refused_place};
ghost use Rattle.pamitoye.specs.Choices.{passed_curve};
ghost use Rattle.pamitoye.specs.Queries.{place_after};

use crate::curves;
use query::{Lent, Refusal};

// The number of an answer to many; with 22, the place of the first parameter that is refused.
fn put_place(answers: Result<(), Refusal>, refused_at: &mut usize) -> u64
    ensures value { result ≡ number_of answers }
    ensures refused_at_after { refused_at.new ≡ place_after (number_of answers) (refused_place answers) refused_at.old }
{
    if let Err(Refusal::OutsideAt(place)) = answers {
        *refused_at = place;
    }
    query::number(answers)
}

// The query at x: `query::evaluate`.
#[unsafe(no_mangle)]
pub extern "C" fn pamitoye_evaluate<'a>(
    d: usize,
    k: usize,
    axes: &[usize; 16],
    start: f64,
    end: f64,
    clamp: bool,
    segments: usize,
    other_segments: usize,
    breaks: &'a [f64],
    coefficients: &'a [f64],
    other_breaks: &'a [f64],
    other_coefficients: &'a [f64],
    x: f64,
    order: usize,
    q: &mut [f64],
    dq: &mut [f64],
    ddq: &mut [f64],
    dddq: &mut [f64],
) -> u64
    ensures value { result ≡ (evaluate_of (passed_curve d k axes.now start end clamp segments other_segments) (slices
        breaks.now coefficients.now other_breaks.now
        other_coefficients.now) x order (outputs q.old dq.old ddq.old
        dddq.old)).number }
    ensures dddq_after { outputs q.new dq.new ddq.new dddq.new ≡ (evaluate_of (passed_curve d k
        axes.now start end clamp segments other_segments) (slices breaks.now coefficients.now
        other_breaks.now other_coefficients.now) x order (outputs q.old dq.old
        ddq.old dddq.old)).after }
{
    let lent = Lent {
        curve: curves::curve(d, k, axes, start, end, clamp, segments, other_segments),
        breaks,
        coefficients,
        other_breaks,
        other_coefficients,
    };
    let answered = query::evaluate(&lent, x, order, q, dq, ddq, dddq);
    query::number(answered)
}

// The queries at all of `xs`: `query::evaluate_all`.
#[unsafe(no_mangle)]
pub extern "C" fn pamitoye_evaluate_all<'a>(
    d: usize,
    k: usize,
    axes: &[usize; 16],
    start: f64,
    end: f64,
    clamp: bool,
    segments: usize,
    other_segments: usize,
    breaks: &'a [f64],
    coefficients: &'a [f64],
    other_breaks: &'a [f64],
    other_coefficients: &'a [f64],
    xs: &[f64],
    order: usize,
    q: &mut [f64],
    dq: &mut [f64],
    ddq: &mut [f64],
    dddq: &mut [f64],
    refused_at: &mut usize,
) -> u64
    ensures value { result ≡ (evaluate_all_of (passed_curve d k axes.now start end clamp segments other_segments) (slices
        breaks.now coefficients.now other_breaks.now other_coefficients.now)
        xs.now order (outputs q.old dq.old ddq.old dddq.old)).number }
    ensures dddq_after { outputs q.new dq.new ddq.new dddq.new ≡ (evaluate_all_of (passed_curve d k
        axes.now start end clamp segments other_segments) (slices breaks.now coefficients.now
        other_breaks.now other_coefficients.now) xs.now order (outputs q.old
        dq.old ddq.old dddq.old)).after }
    ensures refused_at_after { refused_at.new ≡ place_after result (evaluate_all_of (passed_curve d k
        axes.now start end clamp segments other_segments) (slices breaks.now coefficients.now
        other_breaks.now other_coefficients.now) xs.now order (outputs q.old
        dq.old ddq.old dddq.old)).place refused_at.old }
{
    let lent = Lent {
        curve: curves::curve(d, k, axes, start, end, clamp, segments, other_segments),
        breaks,
        coefficients,
        other_breaks,
        other_coefficients,
    };
    let answered = query::evaluate_all(&lent, xs, order, q, dq, ddq, dddq);
    put_place(answered, refused_at)
}

// The query at x of a curve that is known to be well formed: `query::evaluate_formed`.
#[unsafe(no_mangle)]
pub extern "C" fn pamitoye_evaluate_formed<'a>(
    d: usize,
    k: usize,
    axes: &[usize; 16],
    start: f64,
    end: f64,
    clamp: bool,
    segments: usize,
    other_segments: usize,
    breaks: &'a [f64],
    coefficients: &'a [f64],
    other_breaks: &'a [f64],
    other_coefficients: &'a [f64],
    x: f64,
    order: usize,
    q: &mut [f64],
    dq: &mut [f64],
    ddq: &mut [f64],
    dddq: &mut [f64],
) -> u64
    requires { well_formed (passed_curve d k axes.now start end clamp segments other_segments) (slices breaks.now coefficients.now
        other_breaks.now other_coefficients.now) ≡ true }
    ensures value { result ≡ (evaluate_of (passed_curve d k axes.now start end clamp segments other_segments) (slices
        breaks.now coefficients.now other_breaks.now
        other_coefficients.now) x order (outputs q.old dq.old ddq.old
        dddq.old)).number }
    ensures dddq_after { outputs q.new dq.new ddq.new dddq.new ≡ (evaluate_of (passed_curve d k
        axes.now start end clamp segments other_segments) (slices breaks.now coefficients.now
        other_breaks.now other_coefficients.now) x order (outputs q.old dq.old
        ddq.old dddq.old)).after }
{
    let lent = Lent {
        curve: curves::curve(d, k, axes, start, end, clamp, segments, other_segments),
        breaks,
        coefficients,
        other_breaks,
        other_coefficients,
    };
    let answered = query::evaluate_formed(&lent, x, order, q, dq, ddq, dddq);
    query::number(answered)
}

// The query at x of a curve known to be well formed, with the segments of the two sets that are tried first.
// They are any numbers; afterwards they are those of the answer. This is what a curve reader keeps.
#[unsafe(no_mangle)]
pub extern "C" fn pamitoye_evaluate_near<'a>(
    d: usize,
    k: usize,
    axes: &[usize; 16],
    start: f64,
    end: f64,
    clamp: bool,
    segments: usize,
    other_segments: usize,
    breaks: &'a [f64],
    coefficients: &'a [f64],
    other_breaks: &'a [f64],
    other_coefficients: &'a [f64],
    x: f64,
    order: usize,
    q: &mut [f64],
    dq: &mut [f64],
    ddq: &mut [f64],
    dddq: &mut [f64],
    span: &mut usize,
    other_span: &mut usize,
) -> u64
    requires { well_formed (passed_curve d k axes.now start end clamp segments other_segments) (slices breaks.now coefficients.now
        other_breaks.now other_coefficients.now) ≡ true }
    ensures value { result ≡ (evaluate_of (passed_curve d k axes.now start end clamp segments other_segments) (slices
        breaks.now coefficients.now other_breaks.now
        other_coefficients.now) x order (outputs q.old dq.old ddq.old
        dddq.old)).number }
    ensures dddq_after { outputs q.new dq.new ddq.new dddq.new ≡ (evaluate_of (passed_curve d k
        axes.now start end clamp segments other_segments) (slices breaks.now coefficients.now
        other_breaks.now other_coefficients.now) x order (outputs q.old dq.old
        ddq.old dddq.old)).after }
    ensures span_after { (span.new ≡ kept_of result (passed_curve d k axes.now start end clamp segments other_segments)
        breaks.now x span.old)
        × (other_span.new ≡ kept_of result (passed_curve d k axes.now start end clamp segments other_segments)
        other_breaks.now x other_span.old) }
{
    let lent = Lent {
        curve: curves::curve(d, k, axes, start, end, clamp, segments, other_segments),
        breaks,
        coefficients,
        other_breaks,
        other_coefficients,
    };
    let found = query::evaluate_near(&lent, *span, *other_span, x, order, q, dq, ddq, dddq);
    if let Ok(spans) = found {
        *span = spans.span;
        *other_span = spans.other_span;
    }
    query::number(found)
}

// The queries at all of `xs` of such a curve: `query::evaluate_all_formed`.
#[unsafe(no_mangle)]
pub extern "C" fn pamitoye_evaluate_all_formed<'a>(
    d: usize,
    k: usize,
    axes: &[usize; 16],
    start: f64,
    end: f64,
    clamp: bool,
    segments: usize,
    other_segments: usize,
    breaks: &'a [f64],
    coefficients: &'a [f64],
    other_breaks: &'a [f64],
    other_coefficients: &'a [f64],
    xs: &[f64],
    order: usize,
    q: &mut [f64],
    dq: &mut [f64],
    ddq: &mut [f64],
    dddq: &mut [f64],
    refused_at: &mut usize,
) -> u64
    requires { well_formed (passed_curve d k axes.now start end clamp segments other_segments) (slices breaks.now coefficients.now
        other_breaks.now other_coefficients.now) ≡ true }
    ensures value { result ≡ (evaluate_all_of (passed_curve d k axes.now start end clamp segments other_segments) (slices
        breaks.now coefficients.now other_breaks.now other_coefficients.now)
        xs.now order (outputs q.old dq.old ddq.old dddq.old)).number }
    ensures dddq_after { outputs q.new dq.new ddq.new dddq.new ≡ (evaluate_all_of (passed_curve d k
        axes.now start end clamp segments other_segments) (slices breaks.now coefficients.now
        other_breaks.now other_coefficients.now) xs.now order (outputs q.old
        dq.old ddq.old dddq.old)).after }
    ensures refused_at_after { refused_at.new ≡ place_after result (evaluate_all_of (passed_curve d k
        axes.now start end clamp segments other_segments) (slices breaks.now coefficients.now
        other_breaks.now other_coefficients.now) xs.now order (outputs q.old
        dq.old ddq.old dddq.old)).place refused_at.old }
{
    let lent = Lent {
        curve: curves::curve(d, k, axes, start, end, clamp, segments, other_segments),
        breaks,
        coefficients,
        other_breaks,
        other_coefficients,
    };
    let answered = query::evaluate_all_formed(&lent, xs, order, q, dq, ddq, dddq);
    put_place(answered, refused_at)
}
