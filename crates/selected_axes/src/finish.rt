// Back to physical units, the final audit (12, 13) and the errors (17).
ghost use Rattle.std.specs.Prelude.{◌≡◌, ◌+◌, ◌-◌, ◌*◌, ◌≤◌, ◌<◌, length, take};
ghost use Rattle.gathering.specs.Rows.{Below};
ghost use Rattle.smoothing.specs.Rising.{Rising};
ghost use Rattle.smoothing.specs.Rows.{gathered};
ghost use Rattle.smoothing.specs.Finish.{errors_of, finish_of};
ghost use Rattle.refinement.specs.Memory.{Roomy, Wide, memory_at, task_in, state_in};
ghost use Rattle.running_report.specs.Counted.{counts_of};
ghost use Rattle.selected_axes.specs.Physical.{with_points, physical_in};
ghost use Rattle.selected_axes.specs.Selected.{units_of, finished_in};

use refinement::plan::Plan;
use running_report::Report;
use smoothing::Refusal;

// The waypoints as handed in, in the place of the points.
fn put_points(work: &mut [f64], p: Plan, points: &[f64], d: usize, axes: &[usize; 16])
    requires { Roomy p (length work.old) × (d ≤ 16) × (p.samples ≤ 20000) × (p.samples * d ≤ length points.now)
        × Below axes.now p.axes d }
    ensures { memory_at p work.new
        ≡ with_points (gathered points.now d p.samples (take p.axes axes.now))
        (memory_at p work.old) }
{
    let n = p.samples;
    let k = p.axes;
    let from = p.room;
    let end = from + n * k;
    gathering::put_rows(&mut work[from..end], points, d, n, axes, k);
}

// The spline and its polynomial in physical units, beside the waypoints as handed in.
fn put_physical(
    work: &mut [f64],
    p: Plan,
    points: &[f64],
    d: usize,
    axes: &[usize; 16],
    eps: &[f64; 16],
)
    requires { Roomy p (length work.old) × (d ≤ 16) × (p.samples ≤ 20000) × (p.samples * d ≤ length points.now)
        × Below axes.now p.axes d × Wide (memory_at p work.old).t p.count }
    ensures { memory_at p work.new
        ≡ physical_in p (units_of points.now d p.samples (take p.axes axes.now)
        (take p.axes eps.now)) (memory_at p work.old) }
{
    put_points(work, p, points, d, axes);
    crate::physical::scale_all(work, p, eps);
    refinement::insertions::rebuild(work, p);
}

// The errors of the stored bounds.
fn errors_in(work: &[f64], p: Plan) -> [f64; 16]
    requires { Roomy p (length work.now) }
    ensures { take p.axes result ≡ errors_of (task_in p (memory_at p work.now)) (memory_at p work.now).bounds }
{
    let b = refinement::plan::block_of(p);
    let n = p.samples - 1;
    let bounds = 2 * p.room + 2 * b;
    let bounds_end = bounds + n * p.axes;
    crate::physical::errors(&work[bounds..bounds_end], n, p.axes)
}

// All of it, from a state whose knots rise: the largest bound on each axis.
pub fn finish(
    work: &mut [f64],
    p: Plan,
    points: &[f64],
    d: usize,
    axes: &[usize; 16],
    eps: &[f64; 16],
    report: &mut Report,
) -> Result<[f64; 16], Refusal>
    requires { Roomy p (length work.old) × Rising (memory_at p work.old).t p.count × (d ≤ 16) × (p.samples ≤ 20000)
        × (p.samples * d ≤ length points.now) × Below axes.now p.axes d × (report.old.intervals ≤ 4611686018427387904) }
    ensures { finished_in p result report.new work.new
        ≡ finish_of (task_in p (memory_at p work.old))
        (units_of points.now d p.samples (take p.axes axes.now) (take p.axes eps.now))
        (state_in p (counts_of report.old) (memory_at p work.old)) }
{
    put_physical(work, p, points, d, axes, eps);
    let audited = refinement::refit::audit_in(work, p, 0, p.samples - 1);
    *report = running_report::after_audit(*report, audited.checked);
    audited.outcome?;
    let errors = errors_in(work, p);
    if crate::physical::is_excessive(eps, &errors, p.axes) {
        return Err(Refusal::ErrorAboveTolerance);
    }
    Ok(errors)
}
