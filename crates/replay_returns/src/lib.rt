// Cases of the list that `replay` answers: lanes driven back, kind 84. A library, so that it is proved beside other crates.
#![tactic(auto)]

ghost use Rattle.std.specs.Prelude.{◌≡◌, length};
ghost use Rattle.curve.specs.Form.{slices};
ghost use Rattle.return_lane.specs.Return.{return_of};
ghost use Rattle.listing.specs.Output.{printed};
ghost use Rattle.listing.specs.Lines.{Unanswered};
ghost use Rattle.replay_returns.specs.Returned.{marked_slices, returned_text};

use curve::{Curve, Mode};
use listing::axes;
use listing::curves::Slices;
use listing::list::Head;
use listing::output::Output;
use replay_queries::{asked, calls};

// The call with these lent slices, whose cells are all marked before it and printed after it.
fn call(
    curve: Curve,
    p: Slices<'_>,
    lent_breaks: &mut [f64],
    lent_coefficients: &mut [f64],
    lent_other_breaks: &mut [f64],
    lent_other_coefficients: &mut [f64],
    out: &mut Output,
)
    ensures { out.new ≡ printed out.old (returned_text (return_of curve (slices p.entry.breaks.now p.entry.coefficients.now
        p.entry.other_breaks.now p.entry.other_coefficients.now)
        (marked_slices (length lent_breaks.old) (length lent_coefficients.old)
        (length lent_other_breaks.old) (length lent_other_coefficients.old)))) }
{
    calls::mark_all(
        lent_breaks,
        lent_coefficients,
        lent_other_breaks,
        lent_other_coefficients,
    );
    let answer = return_lane::return_lane(
        curve,
        p.breaks,
        p.coefficients,
        p.other_breaks,
        p.other_coefficients,
        lent_breaks,
        lent_coefficients,
        lent_other_breaks,
        lent_other_coefficients,
    );
    calls::refusal(return_lane::number(answer), out);
    calls::cells(
        lent_breaks,
        lent_coefficients,
        lent_other_breaks,
        lent_other_coefficients,
        out,
    )
}

// Kind 84, whole numbers d, k, segments of both sets, four of axes, four counts of cells and the lengths of
// the four lent slices: the answer, and all cells of those slices. There are thirteen, so that the sixteenth,
// which counts queries, is 0.
pub fn returned(head: Head, cells: &[f64], out: &mut Output) -> Option<()>
    ensures { Unanswered out.old out.new result }
{
    let wholes = head.wholes;
    let p = asked::counted_slices(&wholes, cells)?;
    let curve = asked::curve_of(&wholes, p.start, p.end, Mode::Error);
    let mut a = [0.0; 256];
    let mut b = [0.0; 256];
    let mut c = [0.0; 256];
    let mut d = [0.0; 256];
    out.text(b"returned");
    call(
        curve,
        p,
        &mut a[..axes::byte_of(wholes[12], 0)],
        &mut b[..axes::byte_of(wholes[12], 1)],
        &mut c[..axes::byte_of(wholes[12], 2)],
        &mut d[..axes::byte_of(wholes[12], 3)],
        out,
    );
    out.end();
    Some(())
}
