// A curve reader: it keeps a curve with its lent slices, whether it is well formed, and the segments of the
// last answer, and answers as a single query does.
#![tactic(auto)]

ghost use Rattle.std.specs.Prelude.{◌≡◌, IfOk};
ghost use Rattle.query.specs.Lent.{slices_of};
ghost use Rattle.query.specs.Row.{outputs};
ghost use Rattle.query.specs.Query.{outcome, evaluate_of, number_of, refused_place, span_at, kept_of, span_kept, other_span_kept};
ghost use Rattle.reader.specs.Reading.{made, Knows, asked};

use query::{Lent, Refusal, Spans, evaluate_near};

// The curve with its four slices, which are lent; whether it is well formed; and the segments of the
// selected and of the other set that are tried first.
#[derive(Clone, Copy)]
pub struct Reader<'a> {
    pub lent: Lent<'a>,
    pub formed: bool,
    pub span: usize,
    pub other_span: usize,
}

// A reader of a curve. The curve is tested here, and never again.
pub fn new<'a>(lent: Lent<'a>) -> Reader<'a>
    ensures { result ≡ made lent.entry }
{
    Reader {
        lent,
        formed: lent.well_formed(),
        span: 0,
        other_span: 0,
    }
}

// The query at x, as `query::evaluate` has it: whatever was asked before, the answer is the same. What it
// asks of the reader is what `new` makes and `ask` leaves (`made_knows`, `asked_knows`): that it knows
// whether its curve is well formed. A reader of a curve that is not answers 24.
pub fn ask<'s, 'a>(
    reader: &'s mut Reader<'a>,
    x: f64,
    order: usize,
    q: &mut [f64],
    dq: &mut [f64],
    ddq: &mut [f64],
    dddq: &mut [f64],
) -> Result<(), Refusal>
    requires { Knows reader.old }
    ensures answer { outcome (number_of result) (refused_place result) (outputs q.new dq.new ddq.new dddq.new)
        ≡ evaluate_of reader.old.lent.curve (slices_of reader.old.lent) x order (outputs q.old dq.old
        ddq.old dddq.old) }
    ensures after { reader.new ≡ asked reader.old (number_of result) x }
{
    if !reader.formed {
        return Err(Refusal::Malformed);
    }
    let found = evaluate_near(
        &reader.lent,
        reader.span,
        reader.other_span,
        x,
        order,
        q,
        dq,
        ddq,
        dddq,
    )?;
    reader.span = found.span;
    reader.other_span = found.other_span;
    Ok(())
}

// One question to a reader of this curve that keeps these two segments, and the segments that it keeps
// afterwards, if it answers: for callers that can't hold a reader. The curve is tested at each call. After a
// refusal the caller has the two numbers still.
pub fn ask_from<'a>(
    lent: Lent<'a>,
    span: usize,
    other_span: usize,
    x: f64,
    order: usize,
    q: &mut [f64],
    dq: &mut [f64],
    ddq: &mut [f64],
    dddq: &mut [f64],
) -> Result<Spans, Refusal>
    ensures answer { outcome (number_of result) (refused_place result) (outputs q.new dq.new ddq.new dddq.new)
        ≡ evaluate_of lent.entry.curve (slices_of lent.entry) x order (outputs q.old dq.old ddq.old
        dddq.old) }
    ensures ok { IfOk result (λ at. (at.span ≡ span_at lent.entry.curve lent.entry.breaks.now x)
        × (at.other_span ≡ span_at lent.entry.curve lent.entry.other_breaks.now x)) }
    ensures kept { (span_kept result span ≡ kept_of (number_of result) lent.entry.curve lent.entry.breaks.now x span)
        × (other_span_kept result other_span ≡ kept_of (number_of result) lent.entry.curve lent.entry.other_breaks.now x
        other_span) }
{
    let mut reader = new(lent);
    reader.span = span;
    reader.other_span = other_span;
    ask(&mut reader, x, order, q, dq, ddq, dddq)?;
    Ok(Spans {
        span: reader.span,
        other_span: reader.other_span,
    })
}
