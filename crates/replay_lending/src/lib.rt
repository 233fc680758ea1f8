// A request of the list that `replay_builds` answers, built: the call of `build` on lent parts of the
// buffers. A library, so that it is proved beside other crates.
#![tactic(auto)]

ghost use Rattle.std.specs.Prelude.{◌+◌, ◌≤◌, length};
ghost use Rattle.listing.specs.Lines.{Unanswered};

use curve::Mode;
use listing::axes;
use listing::list::Head;
use listing::output::Output;
use replay_requests::parts::{Lent, MARK};
use replay_requests::{lines, parts, question};

// Marks a part that ends at `end`, with the cells around it.
fn mark(buffer: &mut [f64], end: usize)
    requires { end + 8 ≤ length buffer.old }
{
    buffer[..end + 8].fill(MARK);
}

// Kind 70: the request's whole numbers, four of axes, and if there are 16, two with the cells that each
// part has more, and the count of point cells. Marks the parts of the buffers, calls `build` and writes
// the line.
pub fn answer(head: Head, cells: &[f64], buffers: Lent<&mut [f64]>, out: &mut Output) -> Option<()>
    ensures { Unanswered out.old out.new result }
{
    if head.kind != 70 {
        return None;
    }
    let wholes = head.wholes;
    let listed = axes::axes_of(&wholes, 9);
    let q = question::asked(&wholes, head.count, &listed, cells)?;
    let r = q.request;
    let p = parts::parts_asked(&wholes, r.d, r.n, r.limits.segments);
    let Lent {
        work,
        breaks,
        coefficients,
        other_breaks,
        other_coefficients,
        errors,
    } = buffers;
    let lengths = Lent {
        work: work.len(),
        breaks: breaks.len(),
        coefficients: coefficients.len(),
        other_breaks: other_breaks.len(),
        other_coefficients: other_coefficients.len(),
        errors: errors.len(),
    };
    if !parts::fit(p, lengths) {
        return None;
    }
    mark(work, p.work);
    mark(breaks, p.breaks);
    mark(coefficients, p.coefficients);
    mark(other_breaks, p.other_breaks);
    mark(other_coefficients, p.other_coefficients);
    mark(errors, p.errors);
    let built = building::build(
        &r,
        Mode::Error,
        &mut work[8..p.work],
        &mut breaks[8..p.breaks],
        &mut coefficients[8..p.coefficients],
        &mut other_breaks[8..p.other_breaks],
        &mut other_coefficients[8..p.other_coefficients],
        &mut errors[8..p.errors],
    );
    let lent = Lent {
        work: &work[..],
        breaks: &breaks[..],
        coefficients: &coefficients[..],
        other_breaks: &other_breaks[..],
        other_coefficients: &other_coefficients[..],
        errors: &errors[..],
    };
    lines::line(built, p, lent, out);
    Some(())
}
