// The locations of a round: the middles of the spans where an interval's error is largest.
ghost use Rattle.std.specs.Prelude.{◌≡◌, ◌++◌, ◌+◌, ◌≤◌, ◌<◌, length, drop};
ghost use Rattle.window.specs.Cells.{at};
ghost use Rattle.sorting.specs.Sort.{sort_of};
ghost use Rattle.sorting.specs.Thin.{dedup_of};
ghost use Rattle.smoothing.specs.State.{counts};
ghost use Rattle.smoothing.specs.Round.{selected, middle_of, raw_locations};
ghost use Rattle.refinement.specs.Memory.{Roomy, memory_at, task_at, spline_at, state_at, locations_at};
ghost use Rattle.refinement.specs.Kept.{Relocated};
ghost use Rattle.refinement.specs.Round.{location_of, Located};

use crate::plan::Plan;

// Whether interval i is selected: `bounds[i * k..(i + 1) * k].iter().any(|v| *v > 0.9)`.
fn is_selected(work: &[f64], p: Plan, i: usize) -> bool
    requires { Roomy p (length work.now) × (i + 1 < p.samples) }
    ensures { result ≡ selected p.axes (memory_at p work.now).bounds i }
{
    let d = p.axes;
    let bounds = crate::plan::bounds(work, p);
    for a in 0..d {
        if 0.9 < bounds[i * d + a] {
            return true;
        }
    }
    false
}

// The middle of the span of interval i's witness: `(b.t[span] + b.t[span + 1]) / 2.`
fn middle(work: &[f64], p: Plan, i: usize) -> f64
    requires { Roomy p (length work.now) × (i + 1 < p.samples) }
    ensures { result ≡ middle_of (spline_at p work.now) (at (memory_at p work.now).witness i) }
{
    let t = crate::plan::knots(work, p);
    let w = work[2 * p.room + 3 * (p.room * p.axes) + i];
    let span = bspline::search::span(t, p.count, w);
    (t[span] + t[span + 1]) / 2.0
}

// The location of interval i, if it is selected, after the `count` before it. Gives their number then.
fn add_location(work: &mut [f64], p: Plan, i: usize, count: usize) -> usize
    requires { Roomy p (length work.old) × (i + 1 < p.samples) × (count ≤ i) }
    ensures relocated { Relocated (memory_at p work.old) (memory_at p work.new) }
    ensures work_after { locations_at p result work.new
        ≡ locations_at p count work.old ++ location_of p (memory_at p work.old) i }
    ensures upper_bound { result ≤ count + 1 }
{
    if is_selected(work, p, i) {
        let x = middle(work, p, i);
        work[3 * p.room + 3 * (p.room * p.axes) + count] = x;
        return count + 1;
    }
    count
}

// `for i in 0..n - 1`: the locations of all intervals, and their number.
fn collect(work: &mut [f64], p: Plan) -> usize
    requires { Roomy p (length work.old) }
    ensures relocated { Relocated (memory_at p work.old) (memory_at p work.new) }
    ensures work_after { locations_at p result work.new
        ≡ raw_locations (task_at p work.old) (state_at p (counts 0 0 0) work.old) }
    ensures upper_bound { result ≤ p.samples }
{
    let n = p.samples - 1;
    let mut count = 0;
    for i in 0..n {
        count = add_location(work, p, i, count);
    }
    count
}

// `locations.sort_by(f64::total_cmp); locations.dedup()`: those kept come first. Gives their number.
fn sort_once(cells: &mut [f64]) -> usize
    ensures value { result ≡ length (dedup_of (sort_of cells.old)) }
    ensures cells_after { cells.new ≡ dedup_of (sort_of cells.old) ++ drop result (sort_of cells.old) }
{
    sorting::sort(cells);
    sorting::dedup(cells)
}

// The first `count` locations sorted, each once, and their number then.
fn settle(work: &mut [f64], p: Plan, count: usize) -> usize
    requires { Roomy p (length work.old) × (count ≤ p.room) }
    ensures relocated { Relocated (memory_at p work.old) (memory_at p work.new) }
    ensures work_after { locations_at p result work.new ≡ dedup_of (sort_of (locations_at p count work.old)) }
    ensures value { result ≡ length (dedup_of (sort_of (locations_at p count work.old))) }
{
    let from = 3 * p.room + 3 * (p.room * p.axes);
    let to = from + count;
    sort_once(&mut work[from..to])
}

// The source's `locations`, in their place, and their number.
pub fn locate(work: &mut [f64], p: Plan) -> usize
    requires { Roomy p (length work.old) }
    ensures { Located p result work.old work.new }
{
    let count = collect(work, p);
    settle(work, p, count)
}
