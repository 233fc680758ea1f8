// The fit of one window of controls.
ghost use Rattle.std.specs.Prelude.{◌≡◌, ◌+◌, ◌-◌, ◌*◌, ◌≤◌, ◌<◌, length, set};
ghost use Rattle.std.specs.Float.{binary64};
ghost use Rattle.std.specs.Float.Ieee.{add};
ghost use Rattle.window.specs.Window.{splice};
ghost use Rattle.window.specs.Cells.{at};
ghost use Rattle.normal.specs.System.{new_of};
ghost use Rattle.fitting_rows.specs.Arrays.{ArraysWithin, arrays_at};
ghost use Rattle.fit.specs.Region.{WindowLaid, before, system_at};
ghost use Rattle.fitting_rows.specs.Samples.{below};
ghost use Rattle.fitting_rows.specs.Pieces.{at_or_below};
ghost use Rattle.fit.specs.Assembly.{low, high, assembled, assembled_of};
ghost use Rattle.fit.specs.Fit.{Bounded, added_to, answer_of, fit_of, cells_after};

use crate::assembly;
use crate::assembly::Window;
use fitting_rows::Place;
use normal::Unsolved;

// The samples that the window holds, from `first` up to `last`, and how many rows its fit had.
#[derive(Clone, Copy)]
pub struct Counts {
    pub first: usize,
    pub last: usize,
    pub rows: usize,
}

// The parameters from which and up to which a window goes, and the samples from `first` up to `last` that it
// holds.
#[derive(Clone, Copy)]
struct Reach {
    lo: f64,
    hi: f64,
    first: usize,
    last: usize,
}

// The reach of the window [a, z).
fn reach_of(cells: &[f64], p: Place, a: usize, z: usize) -> Reach
    requires { ArraysWithin p (length cells.now) × (a ≤ z) × (z ≤ p.count) }
    ensures lo_value { (result.lo ≡ low (arrays_at p cells.now) a z) × (result.hi ≡ high (arrays_at p cells.now) a z) }
    ensures first_value { (result.first ≡ below (arrays_at p cells.now).s (low (arrays_at p cells.now) a z))
        × (result.last ≡ at_or_below (arrays_at p cells.now).s (high (arrays_at p cells.now) a z)) }
    ensures last_le_samples { result.last ≤ p.samples }
{
    let t = p.knots;
    let s = p.parameters;
    let s_end = s + p.samples;
    let lo = cells[t + a];
    let hi = cells[t + (z + 5)];
    let first = bspline::search::partition_point_lt(&cells[s..s_end], lo);
    let last = bspline::search::partition_point_le(&cells[s..s_end], hi);
    Reach {
        lo,
        hi,
        first,
        last,
    }
}

// Every cell of the window's system becomes +0.
fn clear_system(work: &mut [f64], p: Place, a: usize, z: usize)
    requires { WindowLaid p a z (length work.old) }
    ensures work_unchanged { before p work.new ≡ before p work.old }
    ensures work_after { system_at p (z - a) work.new ≡ new_of (z - a) p.axes }
{
    let g = p.system;
    let n = z - a;
    let e = g + (6 * n + n * p.axes + n);
    window::clear(&mut work[g..e]);
}

// The system of the window [a, z), with all its rows.
fn assemble(work: &mut [f64], p: Place, a: usize, z: usize, strength: f64) -> Counts
    requires { WindowLaid p a z (length work.old) }
    ensures work_unchanged { before p work.new ≡ before p work.old }
    ensures work_after { assembled result.rows (system_at p (z - a) work.new) ≡ assembled_of (arrays_at p
        (before p work.old)) a z strength (new_of (z - a) p.axes) }
    ensures first_value { (result.first ≡ below (arrays_at p (before p work.old)).s (low (arrays_at p (before p work.old)) a z))
        × (result.last ≡ at_or_below (arrays_at p (before p work.old)).s (high (arrays_at p (before p work.old)) a z)) }
{
    clear_system(work, p, a, z);
    let g = p.system;
    let r = reach_of(&work[0..g], p, a, z);
    let w = Window { place: p, a, z };
    let dense = assembly::add_samples(work, w, r.first, r.last);
    let rows = assembly::add_sparse(work, w, r.lo, r.hi, dense);
    assembly::add_penalties(work, w, strength, r.lo, r.hi);
    Counts {
        first: r.first,
        last: r.last,
        rows,
    }
}

// Adds v to the cell at k.
fn add_cell(c: &mut [f64], k: usize, v: f64)
    requires { k < length c.old }
    ensures { c.new ≡ set c.old k (add binary64 (at c.old k) v) }
{
    c[k] = c[k] + v;
}

// Adds the solution, in the system's right sides, to the active controls.
fn add_solution(work: &mut [f64], p: Place, a: usize, z: usize)
    requires { WindowLaid p a z (length work.old) }
    ensures { work.new ≡ splice p.controls (p.controls + p.count * p.axes)
        (added_to (system_at p (z - a) work.old).right (a * p.axes) ((z - a) * p.axes)
        (arrays_at p (before p work.old)).c) work.old }
{
    let d = p.axes;
    let c = p.controls;
    let c_end = c + p.count * d;
    let count = (z - a) * d;
    let right = p.system + 6 * (z - a);
    for i in 0..count {
        let v = work[right + i];
        add_cell(&mut work[c..c_end], a * d + i, v);
    }
}

// The source's `fit`: the controls of the window [a, z) fitted to the samples, all others as they are. The
// system's cells are scratch, and hold afterwards what `solve` left there; on a refusal the controls
// are unchanged.
pub fn fit(
    work: &mut [f64],
    p: Place,
    a: usize,
    z: usize,
    strength: f64,
) -> Result<Counts, Unsolved>
    requires { WindowLaid p a z (length work.old) }
    ensures result_value { answer_of result ≡ (fit_of (arrays_at p (before p work.old)) a z strength).answered }
    ensures work_after { work.new ≡ cells_after p (fit_of (arrays_at p (before p work.old)) a z strength) work.old }
    ensures bounded { Bounded p.samples p.count (answer_of result) }
{
    let counts = assemble(work, p, a, z, strength);
    let g = p.system;
    let d = p.axes;
    let n = z - a;
    let e = g + (6 * n + n * d + n);
    normal::solve(&mut work[g..e], n, d)?;
    add_solution(work, p, a, z);
    Ok(counts)
}
