// What the selected axes start from.
ghost use Rattle.std.specs.Prelude.{◌≡◌, ◌*◌, ◌≤◌, length, OnOk};
ghost use Rattle.request.specs.declared.parameters.Spacing.TheVariants.{Listed};
ghost use Rattle.request.specs.Parameters.{parameter_list};
ghost use Rattle.refinement.specs.Memory.{Roomy, memory_at, task_in};
ghost use Rattle.checks.specs.Checks.{number_of, refusal_after};
ghost use Rattle.gathering.specs.Rows.{Below};
ghost use Rattle.work_slice.specs.Rows.{units_from, task_from};

use checks::{Refusal, Request, refusals};
use refinement::plan::Plan;

// The parameters and the rows, centred over their tolerances, in their places: 6, 7, or neither.
pub fn prepare(
    work: &mut [f64],
    p: Plan,
    r: &Request,
    axes: &[usize; 16],
    eps: &[f64; 16],
) -> Result<(), Refusal>
    requires roomy { Roomy p (length work.old) × (r.now.d ≤ 16) × (p.samples ≤ 20000)
        × (p.samples * r.now.d ≤ length r.now.points.now) × Below axes.now p.axes r.now.d }
    requires samples_in_bounds { r.now.spacing ≡ Listed → p.samples ≤ length r.now.parameters.now }
    ensures value { number_of result
        ≡ refusal_after (parameter_list r.now.spacing r.now.parameters.now r.now.points.now r.now.d p.samples)
        (task_from p.samples p.axes (parameter_list r.now.spacing r.now.parameters.now r.now.points.now r.now.d p.samples)
        (units_from p.samples p.axes r.now.points.now r.now.d axes.now eps.now)) }
    ensures work_after { OnOk result (task_in p (memory_at p work.new) ≡ task_from p.samples p.axes
        (parameter_list r.now.spacing r.now.parameters.now r.now.points.now r.now.d p.samples)
        (units_from p.samples p.axes r.now.points.now r.now.d axes.now eps.now)) }
{
    let n = p.samples;
    let k = p.axes;
    let e = p.room;
    let y_end = e + n * k;
    let range = gathering::put_parameters(&mut work[0..n], r.spacing, r.parameters, r.points, r.d);
    if refusals::is_unreliable(range, &work[0..n]) {
        return Err(Refusal::BadRange);
    }
    gathering::put_centred(&mut work[e..y_end], r.points, r.d, n, axes, k, eps);
    if refusals::is_overflowing(&work[e..y_end]) {
        return Err(Refusal::Overflow);
    }
    Ok(())
}
