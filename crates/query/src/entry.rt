// One query, and many in one call.
ghost use Rattle.std.specs.Prelude.{◌≡◌, true, ◌*◌, ◌<◌, length, MatchOption, IfOk};
ghost use Rattle.curve.specs.Form.{well_formed};
ghost use Rattle.query.specs.Lent.{slices_of};
ghost use Rattle.query.specs.Range.{Inside, Taken};
ghost use Rattle.query.specs.Row.{outputs, Room, filled};
ghost use Rattle.query.specs.Query.{columns_of, first_refused, short_of, outcome, evaluate_of, evaluate_all_of};
ghost use Rattle.query.specs.Query.{number_of, refused_place, span_at, kept_of, span_kept, other_span_kept, Last};

use crate::lent::Lent;
use crate::{places, range, row, segment};
use curve::Curve;

// Why a query is refused, which then has written nothing. OutsideAt has the place of the first parameter
// that is outside, 0 for a single query.
#[derive(Clone, Copy, Debug, PartialEq, Eq)]
pub enum Refusal {
    Malformed,
    OrderAboveThree,
    TooShort,
    OutsideAt(usize),
}

impl Refusal {
    ghost use Rattle.query.specs.Query.{refusal_number};

    // Document 01's number of a refusal.
    pub fn number(self) -> u64
        ensures { result ≡ refusal_number self }
    {
        match self {
            Refusal::Malformed => 24,
            Refusal::OrderAboveThree => 23,
            Refusal::TooShort => 19,
            Refusal::OutsideAt(_) => 22,
        }
    }
}

// Document 01's number of an answer, 0 where nothing is refused.
pub fn number<T: Copy>(answer: Result<T, Refusal>) -> u64
    ensures { result ≡ number_of answer }
{
    match answer {
        Ok(_) => 0,
        Err(refusal) => refusal.number(),
    }
}

// The segments of the selected and of the other set in which a query was answered: the next one may try
// them first.
#[derive(Clone, Copy, Debug, PartialEq, Eq)]
pub struct Spans {
    pub span: usize,
    pub other_span: usize,
}

// Whether one of the slices of the orders asked has fewer cells than are needed.
#[tactic(auto, unfolding(crate::specs::Query::short_of))]
fn short(order: usize, needed: usize, q: usize, dq: usize, ddq: usize, dddq: usize) -> bool
    ensures { result ≡ short_of order needed q dq ddq dddq }
{
    q < needed
        || (1 <= order && dq < needed)
        || (2 <= order && ddq < needed)
        || (3 <= order && dddq < needed)
}

// The place of the first parameter that is refused, if one is; none is, where all are inside.
fn first_refused(curve: Curve, xs: &[f64], inside: bool) -> Option<usize>
    requires { inside ≡ true → Inside curve xs.now }
    ensures { MatchOption result (first_refused curve xs.now ≡ length xs.now) (λ i. (i < length xs.now) × (i ≡ first_refused curve xs.now)) }
{
    if inside {
        return None;
    }
    for i in 0..xs.len() {
        if range::in_range(curve, xs[i]).is_none() {
            return Some(i);
        }
    }
    None
}

// The axes of a well-formed curve at each of the parameters, none of which is refused. The first search
// begins at the two segments that are near, if there are such, and each other one at the segments of the
// parameter before; the last ones are handed back.
fn write_all<'a>(
    lent: &Lent<'a>,
    near: usize,
    other_near: usize,
    xs: &[f64],
    inside: bool,
    order: usize,
    q: &mut [f64],
    dq: &mut [f64],
    ddq: &mut [f64],
    dddq: &mut [f64],
) -> Spans
    requires other_coefficients_value { well_formed lent.now.curve (slices_of lent.now) ≡ true }
    requires taken { Taken lent.now.curve xs.now }
    requires inside { inside ≡ true → Inside lent.now.curve xs.now }
    requires room { Room order (length xs.now * lent.now.curve.d) (outputs q.old dq.old ddq.old dddq.old) }
    ensures dddq_after { outputs q.new dq.new ddq.new dddq.new
        ≡ filled order 0 (λ part. columns_of part lent.now.curve (slices_of lent.now) xs.now)
        (outputs q.old dq.old ddq.old dddq.old) }
    ensures last { Last lent.now.curve (slices_of lent.now) xs.now (length xs.now) result.span result.other_span }
{
    let breaks = lent.breaks;
    let coefficients = lent.coefficients;
    let other_breaks = lent.other_breaks;
    let other_coefficients = lent.other_coefficients;
    let d = lent.curve.d;
    let k = lent.curve.k;
    let n = lent.curve.segments;
    let others = lent.curve.other_segments;
    let m = d - k;
    let table = places::find_places(&lent.curve.axes, k, d);
    let start = lent.curve.start;
    let whole = lent.curve.end - start;
    let scale = 1.0 / whole;
    let from = 6 * (n * k);
    let other_from = 6 * (others * m);
    let mut span = segment::begin(breaks, near);
    let mut other_span = segment::begin(other_breaks, other_near);
    for i in 0..xs.len() {
        let ranged = range::answered(lent.curve, xs[i], inside);
        let u = (ranged.at - start) / whole;
        let here = segment::locate(breaks, coefficients, from, u, span);
        let there = segment::locate(other_breaks, other_coefficients, other_from, u, other_span);
        span = here.span;
        other_span = there.span;
        row::put_axes(
            coefficients,
            other_coefficients,
            k,
            m,
            &table,
            here,
            there,
            scale,
            ranged.outside,
            order,
            i * d,
            q,
            dq,
            ddq,
            dddq,
        );
    }
    Spans { span, other_span }
}

// The query at x of a curve that is well formed, which is required as by `evaluate_formed`, with two
// segments that are tried first, one of each set: whatever numbers they are, the answer is the same. Handed
// back are the segments of the answer; after a refusal the caller has the two numbers still.
pub fn evaluate_near<'a>(
    lent: &Lent<'a>,
    span: usize,
    other_span: usize,
    x: f64,
    order: usize,
    q: &mut [f64],
    dq: &mut [f64],
    ddq: &mut [f64],
    dddq: &mut [f64],
) -> Result<Spans, Refusal>
    requires { well_formed lent.now.curve (slices_of lent.now) ≡ true }
    ensures dddq_after { outcome (number_of result) (refused_place result) (outputs q.new dq.new ddq.new dddq.new)
        ≡ evaluate_of lent.now.curve (slices_of lent.now) x order (outputs q.old dq.old ddq.old
        dddq.old) }
    ensures ok { IfOk result (λ at. (at.span ≡ span_at lent.now.curve lent.now.breaks.now x)
        × (at.other_span ≡ span_at lent.now.curve lent.now.other_breaks.now x)) }
    ensures kept { (span_kept result span ≡ kept_of (number_of result) lent.now.curve lent.now.breaks.now x span)
        × (other_span_kept result other_span ≡ kept_of (number_of result) lent.now.curve lent.now.other_breaks.now x
        other_span) }
{
    let d = lent.curve.d;
    if 3 < order {
        return Err(Refusal::OrderAboveThree);
    }
    if short(order, d, q.len(), dq.len(), ddq.len(), dddq.len()) {
        return Err(Refusal::TooShort);
    }
    if range::in_range(lent.curve, x).is_none() {
        return Err(Refusal::OutsideAt(0));
    }
    Ok(write_all(lent, span, other_span, &[x], false, order, q, dq, ddq, dddq))
}

// The query at x of a curve that is known to be well formed, as that of an accepted build is
// (`accepted_well_formed` in smoothing/proofs/WellFormed). Hence the `requires`: the curve is not tested, so
// that a query does not take longer the more breaks there are. The answer is that of `evaluate`, never 24.
pub fn evaluate_formed<'a>(
    lent: &Lent<'a>,
    x: f64,
    order: usize,
    q: &mut [f64],
    dq: &mut [f64],
    ddq: &mut [f64],
    dddq: &mut [f64],
) -> Result<(), Refusal>
    requires { well_formed lent.now.curve (slices_of lent.now) ≡ true }
    ensures { outcome (number_of result) (refused_place result) (outputs q.new dq.new ddq.new dddq.new)
        ≡ evaluate_of lent.now.curve (slices_of lent.now) x order (outputs q.old dq.old ddq.old
        dddq.old) }
{
    evaluate_near(lent, 0, 0, x, order, q, dq, ddq, dddq)?;
    Ok(())
}

// The query at x: the value of every axis to q and its derivatives up to the order asked, 0 to 3, to the
// others. On an answer d cells of each slice asked for are written and nothing else, on a refusal nothing.
pub fn evaluate<'a>(
    lent: &Lent<'a>,
    x: f64,
    order: usize,
    q: &mut [f64],
    dq: &mut [f64],
    ddq: &mut [f64],
    dddq: &mut [f64],
) -> Result<(), Refusal>
    ensures { outcome (number_of result) (refused_place result) (outputs q.new dq.new ddq.new dddq.new)
        ≡ evaluate_of lent.now.curve (slices_of lent.now) x order (outputs q.old dq.old ddq.old
        dddq.old) }
{
    if !lent.well_formed() {
        return Err(Refusal::Malformed);
    }
    evaluate_formed(lent, x, order, q, dq, ddq, dddq)
}

// The queries at all of `xs` of a curve that is known to be well formed; the `requires` is that of
// `evaluate_formed`. The answer is that of `evaluate_all`, and never 24.
pub fn evaluate_all_formed<'a>(
    lent: &Lent<'a>,
    xs: &[f64],
    order: usize,
    q: &mut [f64],
    dq: &mut [f64],
    ddq: &mut [f64],
    dddq: &mut [f64],
) -> Result<(), Refusal>
    requires { well_formed lent.now.curve (slices_of lent.now) ≡ true }
    ensures { outcome (number_of result) (refused_place result) (outputs q.new dq.new ddq.new
        dddq.new) ≡ evaluate_all_of lent.now.curve (slices_of lent.now) xs.now order (outputs q.old
        dq.old ddq.old dddq.old) }
{
    let d = lent.curve.d;
    let count = xs.len();
    if 3 < order {
        return Err(Refusal::OrderAboveThree);
    }
    if q.len() / d < count {
        return Err(Refusal::TooShort);
    }
    if short(order, count * d, q.len(), dq.len(), ddq.len(), dddq.len()) {
        return Err(Refusal::TooShort);
    }
    let inside = range::all_inside(lent.curve, xs);
    if let Some(place) = first_refused(lent.curve, xs, inside) {
        return Err(Refusal::OutsideAt(place));
    }
    write_all(lent, 0, 0, xs, inside, order, q, dq, ddq, dddq);
    Ok(()) // all are answered
}

// The queries at all of `xs`, each as `evaluate` has it, d cells after d cells. The curve is tested once.
// The first query that is refused refuses the call; on a refusal nothing is written.
pub fn evaluate_all<'a>(
    lent: &Lent<'a>,
    xs: &[f64],
    order: usize,
    q: &mut [f64],
    dq: &mut [f64],
    ddq: &mut [f64],
    dddq: &mut [f64],
) -> Result<(), Refusal>
    ensures { outcome (number_of result) (refused_place result) (outputs q.new dq.new ddq.new
        dddq.new) ≡ evaluate_all_of lent.now.curve (slices_of lent.now) xs.now order (outputs q.old
        dq.old ddq.old dddq.old) }
{
    if !lent.well_formed() {
        return Err(Refusal::Malformed);
    }
    evaluate_all_formed(lent, xs, order, q, dq, ddq, dddq)
}
