// Cases of crate `polynomial`.
ghost use Rattle.std.specs.Prelude.{◌≡◌, ◌+◌, ◌*◌, ◌≤◌, ◌<◌, length};
ghost use Rattle.polynomial.specs.Placed.{PartsLaid};
ghost use Rattle.listing.specs.Lines.{Unanswered};

use listing::list::Head;
use listing::output::Output;
use polynomial::audit::Parts;
use polynomial::interval::Unaudited;

// The parts of a case with d axes, n waypoints and m segments, in the order of `Parts`.
fn layout(d: usize, n: usize, m: usize) -> Parts
    requires { (d ≤ 16) × (0 < n) × (n ≤ 65536) × (0 < m) × (m ≤ 65536) }
    ensures { PartsLaid result (result.coefficients + m * (6 * d)) × (result.samples ≡ n) × (result.segments ≡ m) × (result.axes ≡ d)
        × (result.coefficients ≤ 4000000) × (m * (6 * d) ≤ 8000000) }
{
    let bounds = n + n * d;
    let witness = bounds + (n - 1) * d;
    let breaks = witness + (n - 1);
    Parts {
        parameters: 0,
        points: n,
        bounds,
        witness,
        breaks,
        coefficients: breaks + m + 1,
        segments: m,
        samples: n,
        axes: d,
    }
}

// The cells in that order: the curve, which is first in a case, comes last.
fn arrange(cells: &[f64], work: &mut [f64], curve: usize)
    requires { (curve ≤ length cells.now) × (length cells.now ≤ length work.old) }
{
    let (first, last) = cells.split_at(cells.len() - curve);
    window::copy(work, last);
    window::copy(&mut work[curve..], first);
}

// The line of an audit: the bounds and the witnesses, which lie one after the other, or the number.
fn line(outcome: Result<(), Unaudited>, list: &[f64], out: &mut Output) {
    out.text(b"audit");
    match outcome {
        Ok(()) => {
            out.cells(list);
            out.end();
        }
        Err(e) => out.refused(e.number() as u64),
    }
}

// Kind 50, whole numbers d, n, first, last, segments: the bounds and the witnesses after the audit.
pub fn audit(head: Head, cells: &[f64], work: &mut [f64], out: &mut Output) -> Option<()>
    ensures { Unanswered out.old out.new result }
{
    let wholes = head.wholes;
    let d = wholes[0] as usize;
    let n = wholes[1] as usize;
    let first = wholes[2] as usize;
    let last = wholes[3] as usize;
    let m = wholes[4] as usize;
    if 16 < d || 65536 < n || m < 1 || 65536 < m || n <= first || n <= last {
        return None;
    }
    let p = layout(d, n, m);
    if p.coefficients + m * (6 * d) != cells.len() || work.len() < cells.len() {
        return None;
    }
    arrange(cells, work, p.breaks);
    let r = polynomial::audit::audit(work, p, first, last);
    line(r.outcome, &work[p.bounds..p.breaks], out);
    Some(())
}
