// Cases of crate `window`.
ghost use Rattle.listing.specs.Lines.{Unanswered};

use listing::list::Head;
use listing::output::Output;

// Kind 1: the cells, cleared.
pub fn clear(cells: &[f64], work: &mut [f64], out: &mut Output) -> Option<()>
    ensures { Unanswered out.old out.new result }
{
    let n = cells.len();
    if work.len() < n {
        return None;
    }
    window::copy(work, cells);
    window::clear(&mut work[..n]);
    out.text(b"clear");
    out.cells(&work[..n]);
    out.end();
    Some(())
}

// Kind 2, whole number n: the first n cells after the last n were copied there.
pub fn copy(head: Head, cells: &[f64], work: &mut [f64], out: &mut Output) -> Option<()>
    ensures { Unanswered out.old out.new result }
{
    let n = head.wholes[0];
    let half = cells.len() / 2;
    if n != half as u64 || cells.len() != 2 * half {
        return None;
    }
    window::copy(work, &cells[..half]);
    window::copy(work, &cells[half..]);
    out.text(b"copy");
    out.first_cells(work, half);
    out.end();
    Some(())
}
