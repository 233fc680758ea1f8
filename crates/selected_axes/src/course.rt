// The source's course of work on the selected axes: the start, the rounds, the finish.
ghost use Rattle.std.specs.Prelude.{◌≡◌, ◌+◌, ◌*◌, ◌≤◌, length, take, IfOk};
ghost use Rattle.gathering.specs.Rows.{Below};
ghost use Rattle.smoothing.specs.Build.{selected_of};
ghost use Rattle.refinement.specs.Memory.{Roomy, memory_at, task_in, sized};
ghost use Rattle.selected_axes.specs.Selected.{units_of, answer_in};

use crate::{finish, start};
use refinement::plan::Plan;
use refinement::refine;
use running_report::Report;
use smoothing::Refusal;

// The number of controls, the report, and the largest bound on each axis.
#[derive(Clone, Copy)]
pub struct Smoothed {
    pub count: usize,
    pub report: Report,
    pub errors: [f64; 16],
}

// The selected axes: refusals 8 to 17. The parameters and points are stored, and no other cell is looked at.
pub fn smooth(
    work: &mut [f64],
    p: Plan,
    points: &[f64],
    d: usize,
    axes: &[usize; 16],
    eps: &[f64; 16],
    refinements: usize,
    segments: usize,
) -> Result<Smoothed, Refusal>
    requires { Roomy p (length work.old) × (segments + 16 ≤ p.room) × (refinements ≤ 200) × (d ≤ 16) × (p.samples ≤ 20000)
        × (p.samples * d ≤ length points.now) × Below axes.now p.axes d }
    ensures work_after { answer_in p result work.new
        ≡ selected_of (record { refinements = refinements; segments = segments }) (task_in p (memory_at p work.old))
        (units_of points.now d p.samples (take p.axes axes.now) (take p.axes eps.now)) }
    ensures roomy { IfOk result (λ s. Roomy (sized p s.count) (length work.new) × (s.count ≤ segments + 5)) }
{
    let mut report = Report {
        refinements: 0,
        rows: 0,
        intervals: 0,
    };
    let first = start::start(work, p, segments, &mut report)?;
    let q = Plan { count: first, ..p };
    let count = refine::refine(work, q, segments, refinements, &mut report)?;
    let m = Plan { count, ..p };
    let errors = finish::finish(work, m, points, d, axes, eps, &mut report)?;
    Ok(Smoothed {
        count,
        report,
        errors,
    })
}
