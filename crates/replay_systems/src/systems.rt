// Cases of crate `normal`.
ghost use Rattle.std.specs.Prelude.{◌≡◌, ◌+◌, ◌*◌, ◌<◌, ◌≤◌, length, IfSome};
ghost use Rattle.normal.specs.System.{size_of};
ghost use Rattle.listing.specs.Lines.{Unanswered};

use listing::list::Head;
use listing::output::Output;
use normal::Unsolved;

// The whole number below `most` that a cell holds, if any.
fn index_of(x: f64, most: usize) -> Option<usize>
    ensures { IfSome result (λ i. i < most) }
{
    let mut v = 0.0;
    for i in 0..most {
        if v == x {
            return Some(i);
        }
        v += 1.0;
    }
    None
}

// The cells, and zeros after them.
fn padded<const N: usize>(cells: &[f64]) -> [f64; N]
    requires { length cells.now ≤ N }
{
    let mut values = [0.0; N];
    values[..cells.len()].copy_from_slice(cells);
    values
}

// The window of n active controls from a on, of controls of d axes.
#[derive(Clone, Copy)]
struct Window {
    a: usize,
    n: usize,
    d: usize,
    controls: usize,
    ghost few_axes: { d ≤ 16 },
    ghost inside: { a + n ≤ controls },
    ghost few_controls: { controls ≤ 65536 },
}

// Adds a row, where it reads.
fn add_row(controls: &[f64], row: &[f64], w: Window, sys: &mut [f64]) -> Option<()>
    requires { (length controls.now ≡ w.controls * w.d) × (length row.now ≡ 8 + w.d) × (length sys.old ≡ size_of w.n w.d) }
{
    let start = index_of(row[0], w.controls)?;
    if w.controls < start + 6 {
        return None;
    }
    let basis = padded(&row[1..7]);
    let target = padded(&row[8..]);
    let row = normal::fitting_row(controls, w.d, start, basis, row[7], target);
    normal::add(sys, w.a, w.n, w.d, row);
    Some(())
}

// Adds all rows, where they read.
fn add_rows(controls: &[f64], rows: &[f64], w: Window, sys: &mut [f64]) -> Option<()>
    requires { (length controls.now ≡ w.controls * w.d) × (length sys.old ≡ size_of w.n w.d) }
{
    for row in rows.chunks_exact(8 + w.d) {
        add_row(controls, row, w, sys)?;
    }
    Some(())
}

// The line of a system: the refusal's number, or the solution.
fn line(answer: Result<(), Unsolved>, solution: &[f64], out: &mut Output) {
    out.text(b"normal");
    match answer {
        Ok(()) => {
            out.cells(solution);
            out.end();
        }
        Err(e) => out.refused(e.number() as u64),
    }
}

// Makes the system of the window, adds the rows and solves it.
fn system(
    controls: &[f64],
    rows: &[f64],
    w: Window,
    work: &mut [f64],
    out: &mut Output,
) -> Option<()>
    requires { (length controls.now ≡ w.controls * w.d) × (size_of w.n w.d ≤ length work.old) }
    ensures { Unanswered out.old out.new result }
{
    let right = 6 * w.n;
    let scales = right + w.n * w.d;
    let size = scales + w.n;
    window::clear(&mut work[..size]);
    add_rows(controls, rows, w, &mut work[..size])?;
    let answer = normal::solve(&mut work[..size], w.n, w.d);
    line(answer, &work[right..scales], out);
    Some(())
}

// Kind 30, whole numbers d, a, z, controls, rows: the system of the controls from a up to z.
pub fn normal(head: Head, cells: &[f64], work: &mut [f64], out: &mut Output) -> Option<()>
    ensures { Unanswered out.old out.new result }
{
    let d = head.wholes[0] as usize;
    let a = head.wholes[1] as usize;
    let z = head.wholes[2] as usize;
    let controls = head.wholes[3] as usize;
    let rows = head.wholes[4] as usize;
    if 16 < d || 65536 < controls || 65536 < rows || controls < z || z < a {
        return None;
    }
    let n = z - a;
    if cells.len() != controls * d + rows * (8 + d) || work.len() < 6 * n + n * d + n {
        return None;
    }
    let w = Window { a, n, d, controls };
    let (controls, rows) = cells.split_at(controls * d);
    system(controls, rows, w, work, out)
}
