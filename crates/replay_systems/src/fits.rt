// Cases of crate `fit`.
ghost use Rattle.std.specs.Prelude.{◌≡◌, ◌+◌, ◌-◌, ◌*◌, ◌≤◌, ◌<◌};
ghost use Rattle.normal.specs.System.{size_of};
ghost use Rattle.fit.specs.Region.{WindowLaid};
ghost use Rattle.listing.specs.Lines.{Unanswered};

use fit::Counts;
use fitting_rows::Place;
use listing::list::Head;
use listing::output::Output;
use normal::Unsolved;

// The arrays of a case with d axes, n samples and m controls, in the case's order, and the system of the
// controls from a up to z after them.
fn layout(d: usize, n: usize, m: usize, a: usize, z: usize) -> Place
    requires { (d ≤ 16) × (2 ≤ n) × (n ≤ 65536) × (6 ≤ m) × (m ≤ 65536) × (a ≤ z) × (z ≤ m) }
    ensures { WindowLaid result a z (result.system + size_of (z - a) d) × (result.axes ≡ d) × (result.controls ≤ 4000000)
        × (m * d ≤ 4000000) × (result.controls ≤ result.parameters) × (result.parameters ≤ result.system) × (result.system ≤ 8000000)
        × (size_of (z - a) d ≤ 8000000) }
{
    let controls = m + 6;
    let parameters = controls + m * d;
    let points = parameters + n;
    Place {
        knots: 0,
        controls,
        count: m,
        axes: d,
        parameters,
        points,
        samples: n,
        system: points + n * d,
    }
}

// The line of a fit: its counts and all controls, or the number.
fn line(fitted: Result<Counts, Unsolved>, controls: &[f64], out: &mut Output) {
    out.text(b"fit");
    match fitted {
        Ok(counts) => {
            out.whole(counts.first as u64);
            out.whole(counts.last as u64);
            out.whole(counts.rows as u64);
            out.cells(controls);
            out.end();
        }
        Err(e) => out.refused(e.number() as u64),
    }
}

// Kind 40, whole numbers d, n, a, z, knots: the controls after the fit of the window [a, z).
pub fn fit(head: Head, cells: &[f64], work: &mut [f64], out: &mut Output) -> Option<()>
    ensures { Unanswered out.old out.new result }
{
    let wholes = head.wholes;
    let d = wholes[0] as usize;
    let n = wholes[1] as usize;
    let a = wholes[2] as usize;
    let z = wholes[3] as usize;
    let knots = wholes[4] as usize;
    if 16 < d || n < 2 || 65536 < n || knots < 12 || 65536 < knots {
        return None;
    }
    let m = knots - 6;
    if z < a || m < z {
        return None;
    }
    let p = layout(d, n, m, a, z);
    let k = z - a;
    let end = p.system + (6 * k + k * d + k);
    let (strength, rest) = cells.split_first()?;
    if work.len() < end || p.system != rest.len() {
        return None;
    }
    window::copy(work, rest);
    let fitted = fit::fit(&mut work[..end], p, a, z, *strength);
    line(fitted, &work[p.controls..p.parameters], out);
    Some(())
}
