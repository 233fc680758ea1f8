// Queries in turn, asked of a curve reader: each of one that keeps the segments of the last answer. A function with a reader in
// a local is not covered, so each question goes through `reader::ask_from`.
ghost use Rattle.std.specs.Prelude.{◌≡◌, ◌%◌, length, get_or};
ghost use Rattle.std.specs.Float.{nan};
ghost use Rattle.listing.specs.Axes.{byte_of};
ghost use Rattle.curve.specs.Form.{slices};
ghost use Rattle.query.specs.Query.{evaluate_of};
ghost use Rattle.listing.specs.Output.{printed};
ghost use Rattle.replay_queries.specs.Told.{marked_outputs, told_text, turns_text};

use crate::calls;
use curve::Curve;
use listing::axes;
use listing::curves::Slices;
use listing::output::Output;
use query::Lent;

// The segments that are tried next.
#[derive(Clone, Copy)]
struct Kept {
    span: usize,
    other_span: usize,
}

// One of them, asked of a reader that keeps these segments, and printed as a single query is.
fn next(
    curve: Curve,
    p: Slices<'_>,
    kept: Kept,
    x: f64,
    order: usize,
    q: &mut [f64],
    dq: &mut [f64],
    ddq: &mut [f64],
    dddq: &mut [f64],
    out: &mut Output,
) -> Kept
    ensures { out.new ≡ printed out.old (told_text (evaluate_of curve
        (slices p.entry.breaks.now p.entry.coefficients.now
        p.entry.other_breaks.now p.entry.other_coefficients.now) x order
        (marked_outputs (length q.old) (length dq.old) (length ddq.old) (length dddq.old)))) }
{
    calls::mark_all(q, dq, ddq, dddq);
    let lent = Lent {
        curve,
        breaks: p.breaks,
        coefficients: p.coefficients,
        other_breaks: p.other_breaks,
        other_coefficients: p.other_coefficients,
    };
    let found = reader::ask_from(lent, kept.span, kept.other_span, x, order, q, dq, ddq, dddq);
    calls::refusal(query::number(found), out);
    calls::cells(q, dq, ddq, dddq, out);
    match found {
        Ok(spans) => Kept {
            span: spans.span,
            other_span: spans.other_span,
        },
        Err(_) => kept,
    }
}

// All of those after the curve's slices; query i asks the order of byte i mod 4.
pub fn in_turn(
    curve: Curve,
    p: Slices<'_>,
    orders: u64,
    q: &mut [f64],
    dq: &mut [f64],
    ddq: &mut [f64],
    dddq: &mut [f64],
    out: &mut Output,
)
    ensures { out.new ≡ printed out.old (turns_text (length p.entry.rest.now) (λ i. evaluate_of curve
        (slices p.entry.breaks.now p.entry.coefficients.now
        p.entry.other_breaks.now p.entry.other_coefficients.now)
        (get_or p.entry.rest.now i nan) (byte_of orders (i % 4))
        (marked_outputs (length q.old) (length dq.old) (length ddq.old) (length dddq.old)))) }
{
    let mut kept = Kept {
        span: 0,
        other_span: 0,
    };
    for i in 0..p.rest.len() {
        kept = next(
            curve,
            p,
            kept,
            p.rest[i],
            axes::byte_of(orders, i % 4),
            q,
            dq,
            ddq,
            dddq,
            out,
        );
    }
}
