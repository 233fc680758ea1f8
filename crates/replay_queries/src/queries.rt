// Cases of queries in both modes, with any order, any lengths of the four slices, and curves of any form.
ghost use Rattle.listing.specs.Lines.{Unanswered};

use crate::{asked, calls, turns};
use curve::Curve;
use listing::curves::Slices;
use listing::list::Head;
use listing::output::Output;
use listing::{axes, curves};

// How a case asks: one query alone, all in one call, or in turn of a reader.
#[derive(Clone, Copy)]
pub enum Way {
    Single,
    All,
    InTurn,
}

// The name of a way.
fn name(way: Way, out: &mut Output) {
    match way {
        Way::Single => out.text(b"query"),
        Way::All => out.text(b"queries"),
        Way::InTurn => out.text(b"reader"),
    }
}

// The call of a way; more or fewer than one query are asked in one call.
fn call(
    way: Way,
    curve: Curve,
    p: Slices<'_>,
    order: usize,
    q: &mut [f64],
    dq: &mut [f64],
    ddq: &mut [f64],
    dddq: &mut [f64],
    out: &mut Output,
) {
    match way {
        Way::Single if p.rest.len() == 1 => calls::single(
            curve, p, p.rest[0], order, q, dq, ddq, dddq, out,
        ),
        Way::InTurn => turns::in_turn(curve, p, order as u64, q, dq, ddq, dddq, out),
        _ => calls::all(curve, p, order, q, dq, ddq, dddq, out),
    }
}

// Whole numbers d, k, segments of both sets, four of axes, four counts of cells, order, mode, the lengths
// of the four slices and the queries: the answer, and all cells of the slices.
pub fn query(way: Way, head: Head, cells: &[f64], out: &mut Output) -> Option<()>
    ensures { Unanswered out.old out.new result }
{
    let wholes = head.wholes;
    let p = asked::counted_slices(&wholes, cells)?;
    let mode = curves::mode_of(wholes[13])?;
    let curve = asked::curve_of(&wholes, p.start, p.end, mode);
    let mut q = [0.0; 256];
    let mut dq = [0.0; 256];
    let mut ddq = [0.0; 256];
    let mut dddq = [0.0; 256];
    name(way, out);
    call(
        way,
        curve,
        p,
        wholes[12] as usize,
        &mut q[..axes::byte_of(wholes[14], 0)],
        &mut dq[..axes::byte_of(wholes[14], 1)],
        &mut ddq[..axes::byte_of(wholes[14], 2)],
        &mut dddq[..axes::byte_of(wholes[14], 3)],
        out,
    );
    out.end();
    Some(())
}
