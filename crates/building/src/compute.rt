// What is computed once the checks 1 to 5 and 26 let a request through.
ghost use Rattle.std.specs.Prelude.{◌≡◌, ◌+◌, ◌-◌, ◌*◌, ◌≤◌, ◌<◌, length, IfOk};
ghost use Rattle.request.specs.declared.parameters.Spacing.TheVariants.{Listed};
ghost use Rattle.request.specs.Parameters.{parameter_list};
ghost use Rattle.refinement.specs.Memory.{Roomy, cells_of, sized};
ghost use Rattle.checks.specs.Request.{limits_of};
ghost use Rattle.gathering.specs.Rows.{Below};
ghost use Rattle.work_slice.specs.Rows.{units_from, task_from, other_from};
ghost use Rattle.building.specs.Computed.{smoothed_at, with_other, computed_of, computed_in};

use crate::answers::Refusal;
use checks::Request;
use checks::choices::AxisList;
use refinement::plan::Plan;
use running_report::Report;
use selected_axes::course::Smoothed;

// The number of controls, the report, the errors, and how many segments the other axes have.
#[derive(Clone, Copy)]
pub struct Computed {
    pub count: usize,
    pub report: Report,
    pub errors: [f64; 16],
    pub other_segments: usize,
}

// The other axes, once the selected axes are done, behind what the plan takes.
fn with_others(
    work: &mut [f64],
    p: Plan,
    r: &Request,
    rest: &AxisList,
    done: Smoothed,
) -> Result<Computed, Refusal>
    requires roomy { Roomy (sized p done.count) (length work.old) × (p.samples + 16 ≤ p.room)
        × (cells_of p + (10 * p.room + 8 * (p.room * rest.now.count)) ≤ length work.old) }
    requires d_bound { (r.now.d ≤ 16) × (rest.now.count ≤ 16) × (p.samples ≤ 20000)
        × (p.samples * r.now.d ≤ length r.now.points.now) × Below rest.now.axes rest.now.count r.now.d }
    requires samples_in_bounds { r.now.spacing ≡ Listed → p.samples ≤ length r.now.parameters.now }
    ensures work_after { computed_in p rest.now.count result work.new
        ≡ with_other (smoothed_at p done work.old)
        (other_from p.samples rest.now.count
        (parameter_list r.now.spacing r.now.parameters.now r.now.points.now r.now.d p.samples)
        r.now.points.now r.now.d rest.now.axes) }
    ensures count_value { IfOk result (λ c. (c.count ≡ done.count) × (c.other_segments < p.samples)) }
{
    let n = p.samples;
    let e = p.room;
    let cells = 14 * e + 10 * (e * p.axes);
    let other_segments = work_slice::interpolate_others(&mut work[cells..], e, n, r, rest)?;
    let errors = done.errors;
    Ok(Computed {
        count: done.count,
        report: done.report,
        errors,
        other_segments,
    })
}

// 6 and 7, the selected axes, then the other axes.
pub(crate) fn compute(
    work: &mut [f64],
    p: Plan,
    r: &Request,
    chosen: &AxisList,
    eps: &[f64; 16],
    rest: &AxisList,
) -> Result<Computed, Refusal>
    requires roomy { Roomy p (length work.old) × (p.samples + 16 ≤ p.room)
        × (cells_of p + (10 * p.room + 8 * (p.room * rest.now.count)) ≤ length work.old)
        × (r.now.limits.segments + 16 ≤ p.room) × (r.now.limits.refinements ≤ 200) }
    requires d_bound { (r.now.d ≤ 16) × (rest.now.count ≤ 16) × (p.samples ≤ 20000)
        × (p.samples * r.now.d ≤ length r.now.points.now) × Below rest.now.axes rest.now.count r.now.d
        × Below chosen.now.axes p.axes r.now.d }
    requires samples_in_bounds { r.now.spacing ≡ Listed → p.samples ≤ length r.now.parameters.now }
    ensures work_after { computed_in p rest.now.count result work.new
        ≡ computed_of (parameter_list r.now.spacing r.now.parameters.now r.now.points.now r.now.d p.samples)
        (limits_of r.now.limits)
        (task_from p.samples p.axes
        (parameter_list r.now.spacing r.now.parameters.now r.now.points.now r.now.d p.samples)
        (units_from p.samples p.axes r.now.points.now r.now.d chosen.now.axes eps.now))
        (units_from p.samples p.axes r.now.points.now r.now.d chosen.now.axes eps.now)
        (other_from p.samples rest.now.count
        (parameter_list r.now.spacing r.now.parameters.now r.now.points.now r.now.d p.samples)
        r.now.points.now r.now.d rest.now.axes) }
    ensures roomy_2 { IfOk result (λ c. Roomy (sized p c.count) (length work.new)
        × (c.count ≤ r.now.limits.segments + 5) × (c.other_segments < p.samples)) }
{
    work_slice::prepare(work, p, r, &chosen.axes, eps)?;
    let done = selected_axes::course::smooth(
        work,
        p,
        r.points,
        r.d,
        &chosen.axes,
        eps,
        r.limits.refinements,
        r.limits.segments,
    )?;
    with_others(work, p, r, rest, done)
}
