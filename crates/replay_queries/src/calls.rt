// The calls of a case. Every cell of the four slices is marked before a call, and all are printed after
// it: those that it had to leave show the mark.
ghost use Rattle.std.specs.Prelude.{◌≡◌, ◌<◌, length};
ghost use Rattle.curve.specs.Form.{slices};
ghost use Rattle.query.specs.Row.{outputs};
ghost use Rattle.query.specs.Query.{refused_place, evaluate_of, evaluate_all_of};
ghost use Rattle.listing.specs.Output.{printed};
ghost use Rattle.replay_queries.specs.Told.{marks, marked_outputs, refusal_text, place_text, outputs_text, told_text, told_of_all_text};

use curve::Curve;
use listing::curves::Slices;
use listing::output::Output;
use query::{Lent, Refusal};

const MARK: f64 = -6.0221407623e-123;

// Every cell is marked.
fn mark(s: &mut [f64])
    ensures { s.new ≡ marks (length s.old) }
{
    s.fill(MARK);
}

// Every cell of the four slices is marked.
pub fn mark_all(q: &mut [f64], dq: &mut [f64], ddq: &mut [f64], dddq: &mut [f64])
    ensures { outputs q.new dq.new ddq.new dddq.new
        ≡ marked_outputs (length q.old) (length dq.old) (length ddq.old) (length dddq.old) }
{
    mark(q);
    mark(dq);
    mark(ddq);
    mark(dddq);
}

// Which of many was refused, 0 where no parameter was.
fn refused_at(answers: Result<(), Refusal>) -> u64
    ensures { result ≡ refused_place answers }
{
    match answers {
        Err(Refusal::OutsideAt(i)) => i as u64,
        _ => 0,
    }
}

// A refusal's number.
pub fn refusal(number: u64, out: &mut Output)
    ensures { out.new ≡ printed out.old (refusal_text number) }
{
    if number != 0 {
        out.text(b" refused");
        out.whole(number);
    }
}

// The place of the first of many that is outside.
fn place(number: u64, place: u64, out: &mut Output)
    ensures { out.new ≡ printed out.old (place_text number place) }
{
    if number == 22 {
        out.whole(place);
    }
}

// All cells of the four slices.
pub fn cells(q: &[f64], dq: &[f64], ddq: &[f64], dddq: &[f64], out: &mut Output)
    ensures { out.new ≡ printed out.old (outputs_text (outputs q.now dq.now
        ddq.now dddq.now)) }
{
    out.cells(q);
    out.cells(dq);
    out.cells(ddq);
    out.cells(dddq);
}

// One query.
pub fn single(
    curve: Curve,
    p: Slices<'_>,
    x: f64,
    order: usize,
    q: &mut [f64],
    dq: &mut [f64],
    ddq: &mut [f64],
    dddq: &mut [f64],
    out: &mut Output,
)
    ensures { out.new ≡ printed out.old (told_text (evaluate_of curve (slices p.entry.breaks.now p.entry.coefficients.now
        p.entry.other_breaks.now p.entry.other_coefficients.now) x order
        (marked_outputs (length q.old) (length dq.old) (length ddq.old) (length dddq.old)))) }
{
    mark_all(q, dq, ddq, dddq);
    let lent = Lent {
        curve,
        breaks: p.breaks,
        coefficients: p.coefficients,
        other_breaks: p.other_breaks,
        other_coefficients: p.other_coefficients,
    };
    let answer = query::evaluate(&lent, x, order, q, dq, ddq, dddq);
    refusal(query::number(answer), out);
    cells(q, dq, ddq, dddq, out);
}

// All of those after the curve's slices, in one call.
pub fn all(
    curve: Curve,
    p: Slices<'_>,
    order: usize,
    q: &mut [f64],
    dq: &mut [f64],
    ddq: &mut [f64],
    dddq: &mut [f64],
    out: &mut Output,
)
    ensures { out.new ≡ printed out.old (told_of_all_text (evaluate_all_of curve
        (slices p.entry.breaks.now p.entry.coefficients.now
        p.entry.other_breaks.now p.entry.other_coefficients.now)
        p.entry.rest.now order (marked_outputs (length q.old) (length dq.old) (length ddq.old)
        (length dddq.old)))) }
{
    mark_all(q, dq, ddq, dddq);
    let lent = Lent {
        curve,
        breaks: p.breaks,
        coefficients: p.coefficients,
        other_breaks: p.other_breaks,
        other_coefficients: p.other_coefficients,
    };
    let answers = query::evaluate_all(&lent, p.rest, order, q, dq, ddq, dddq);
    refusal(query::number(answers), out);
    place(query::number(answers), refused_at(answers), out);
    cells(q, dq, ddq, dddq, out);
}
