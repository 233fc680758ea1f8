// The first spline: the chord from the first waypoint to the last, over the first knots.
ghost use Rattle.std.specs.Prelude.{◌≡◌, ◌+◌, ◌-◌, ◌*◌, ◌≤◌, ◌<◌, length, replicate};
ghost use Rattle.std.specs.Float.{binary64};
ghost use Rattle.std.specs.Float.Ieee.{mul};
ghost use Rattle.window.specs.Cells.{at, zeros};
ghost use Rattle.window.specs.Window.{window};
ghost use Rattle.window.specs.Rows.{list_of, table, written};
ghost use Rattle.smoothing.specs.State.{counts};
ghost use Rattle.smoothing.specs.Start.{greville_of, open_knots, chord_controls, chord_state};
ghost use Rattle.refinement.specs.Memory.{Roomy, memory_at, task_in, state_in, with_controls, with_bounds};
ghost use Rattle.selected_axes.specs.First.{inner_knots};

use refinement::plan::Plan;

// Six knots at 0 before the inner ones, and six at 1 behind them.
fn put_ends(work: &mut [f64], p: Plan)
    requires { Roomy p (length work.old) }
    ensures work_after { (memory_at p work.new).t ≡ open_knots (inner_knots p (p.count - 6) work.old) }
    ensures work_unchanged { task_in p (memory_at p work.new) ≡ task_in p (memory_at p work.old) }
{
    let b = refinement::plan::block_of(p);
    let t = p.room + b;
    let inner = t + 6;
    let behind = t + p.count;
    let end = behind + 6;
    window::clear(&mut work[t..inner]);
    work[behind..end].fill(1.0);
}

// Greville's abscissa of control i.
fn greville(t: &[f64], i: usize) -> f64
    requires { i + 6 ≤ length t.now }
    ensures { result ≡ greville_of t.now i }
{
    let mut sum = -0.0;
    for j in 0..5 {
        sum += t[i + 1 + j];
    }
    sum / 5.0
}

// The control at u on the chord, from the cell `to` on: u times the last waypoint, which lies at `last`.
fn put_control(work: &mut [f64], to: usize, last: usize, d: usize, u: f64)
    requires { (last + d ≤ to) × (to + d ≤ length work.old) }
    ensures { work.new
        ≡ written to (list_of d (λ a. mul binary64 u (at work.old (last + a)))) work.old }
{
    for a in 0..d {
        work[to + a] = u * work[last + a];
    }
}

// The controls of the m + 6 knots at t, from the cell `to` on.
fn put_controls(work: &mut [f64], t: usize, m: usize, last: usize, d: usize, to: usize)
    requires { (t + (m + 6) ≤ to) × (last + d ≤ to) × (to + m * d ≤ length work.old) }
    ensures { work.new
        ≡ written to (table m d (λ i a. mul binary64 (greville_of (window t (t + (m + 6)) work.old) i)
        (at work.old (last + a)))) work.old }
{
    let t_end = t + (m + 6);
    for i in 0..m {
        let u = greville(&work[t..t_end], i);
        put_control(work, to + i * d, last, d, u);
    }
}

// The controls of the stored knots.
fn put_chord(work: &mut [f64], p: Plan)
    requires { Roomy p (length work.old) }
    ensures { memory_at p work.new
        ≡ with_controls (chord_controls (task_in p (memory_at p work.old)) (memory_at p work.old).t p.count)
        (memory_at p work.old) }
{
    let s = refinement::plan::spline_of(p);
    let last = p.room + (p.samples - 1) * p.axes;
    put_controls(work, s.knots, p.count, last, p.axes, s.controls);
}

// No bound and no witness so far.
fn clear_bounds(work: &mut [f64], p: Plan)
    requires { Roomy p (length work.old) }
    ensures { memory_at p work.new
        ≡ with_bounds (zeros ((p.samples - 1) * p.axes)) (zeros (p.samples - 1)) (memory_at p work.old) }
{
    let b = refinement::plan::block_of(p);
    let n = p.samples - 1;
    let bounds = 2 * p.room + 2 * b;
    let bounds_end = bounds + n * p.axes;
    let witness = 2 * p.room + 3 * b;
    let witness_end = witness + n;
    window::clear(&mut work[bounds..bounds_end]);
    window::clear(&mut work[witness..witness_end]);
}

// The state before the first fit. The inner knots lie in their place.
pub(crate) fn begin(work: &mut [f64], p: Plan)
    requires { Roomy p (length work.old) }
    ensures work_after { state_in p (counts 0 0 0) (memory_at p work.new)
        ≡ chord_state (task_in p (memory_at p work.old)) (inner_knots p (p.count - 6) work.old) }
    ensures work_unchanged { task_in p (memory_at p work.new) ≡ task_in p (memory_at p work.old) }
{
    put_ends(work, p);
    put_chord(work, p);
    clear_bounds(work, p);
}
