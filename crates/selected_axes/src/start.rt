// Up to the loop of `build`: the first knots (8), the first spline, its fit (9, 10, 11) and its audit
// (12, 13).
ghost use Rattle.std.specs.Prelude.{◌≡◌, ◌+◌, ◌-◌, ◌≤◌, length, IfOk, OnOk};
ghost use Rattle.smoothing.specs.Answer.{and_then};
ghost use Rattle.smoothing.specs.Refusal.{answered};
ghost use Rattle.smoothing.specs.Rising.{Rising};
ghost use Rattle.smoothing.specs.State.{audit_in};
ghost use Rattle.smoothing.specs.Start.{curved, first_knots, first_fit, start_of};
ghost use Rattle.refinement.specs.Memory.{Roomy, Wide, memory_at, with_controls, task_in, task_at, state_at, sized, Stored};
ghost use Rattle.refinement.specs.Refit.{Same};
ghost use Rattle.refinement.specs.Refined.{outcome_of};
ghost use Rattle.running_report.specs.Counted.{counts_of};
ghost use Rattle.selected_axes.specs.First.{inner_knots};

use refinement::plan::Plan;
use running_report::Report;
use seed::Waypoints;
use smoothing::Refusal;

// The first knots, in the place of the inner ones, and how many: none unless the waypoints are curved.
fn put_knots(work: &mut [f64], p: Plan, bent: bool) -> usize
    requires { Roomy p (length work.old) × (bent ≡ curved (task_in p (memory_at p work.old))) }
    ensures work_after { inner_knots p result work.new ≡ first_knots (task_in p (memory_at p work.old)) }
    ensures value { result ≡ length (first_knots (task_in p (memory_at p work.old))) }
    ensures work_unchanged { task_in p (memory_at p work.new) ≡ task_in p (memory_at p work.old) }
{
    let b = refinement::plan::block_of(p);
    let w = Waypoints {
        parameters: 0,
        points: p.room,
        samples: p.samples,
        axes: p.axes,
        knots: p.room + b + 6,
    };
    if bent {
        return seed::seed(work, w);
    }
    0
}

// The first fit, of all controls but the first and the last, where the waypoints are curved.
fn fit_first(work: &mut [f64], p: Plan, bent: bool, report: &mut Report) -> Result<(), Refusal>
    requires { Roomy p (length work.old) × (bent ≡ curved (task_at p work.old)) × (report.old.rows ≤ 4294967296) }
    ensures work_after { answered result (state_at p (counts_of report.new) work.new)
        ≡ first_fit (task_at p work.old) (state_at p (counts_of report.old) work.old) }
    ensures work_after_2 { memory_at p work.new ≡ with_controls (memory_at p work.new).c (memory_at p work.old) }
    ensures refinements_value { (report.new.refinements ≡ report.old.refinements)
        × (report.new.rows ≤ report.old.rows + 4294967296) × (report.new.intervals ≡ report.old.intervals) }
{
    if !bent {
        return Ok(());
    }
    let fitted = refinement::refit::fit_in(work, p, 1, p.count - 1, 0.001)?;
    *report = running_report::after_fit(*report, fitted.rows);
    Ok(())
}

// The polynomial of the stored spline, and the audit of all intervals against it.
fn audit_first(work: &mut [f64], p: Plan, report: &mut Report) -> Result<(), Refusal>
    requires { Roomy p (length work.old) × Wide (memory_at p work.old).t p.count × (report.old.intervals ≡ 0) }
    ensures work_after { answered result (state_at p (counts_of report.new) work.new)
        ≡ audit_in (task_at p work.old) 0 (p.samples - 1) (state_at p (counts_of report.old) work.old) }
    ensures stored { Stored p (memory_at p work.new) × Same (memory_at p work.old) (memory_at p work.new) }
    ensures refinements_value { (report.new.refinements ≡ report.old.refinements) × (report.new.rows ≡ report.old.rows)
        × (report.new.intervals ≤ 20016) }
{
    refinement::insertions::rebuild(work, p);
    let audited = refinement::refit::audit_in(work, p, 0, p.samples - 1);
    *report = running_report::after_audit(*report, audited.checked);
    audited.outcome?;
    Ok(())
}

// The first fit, and the first audit.
fn first_state(work: &mut [f64], p: Plan, bent: bool, report: &mut Report) -> Result<(), Refusal>
    requires roomy { Roomy p (length work.old) × (bent ≡ curved (task_at p work.old)) × Wide (memory_at p work.old).t p.count }
    requires report_begins { (report.old.rows ≡ 0) × (report.old.intervals ≡ 0) }
    ensures work_after { answered result (state_at p (counts_of report.new) work.new)
        ≡ and_then (first_fit (task_at p work.old) (state_at p (counts_of report.old) work.old))
        (audit_in (task_at p work.old) 0 (p.samples - 1)) }
    ensures stored { OnOk result (Stored p (memory_at p work.new) × Same (memory_at p work.old) (memory_at p work.new)) }
    ensures refinements_value { (report.new.refinements ≡ report.old.refinements) × (report.new.rows ≤ 4294967296)
        × (report.new.intervals ≤ 20016) }
{
    fit_first(work, p, bent, report)?;
    audit_first(work, p, report)
}

// All of it: the number of controls. The parameters and points are stored, and no other cell is looked at; the report
// begins anew.
pub fn start(
    work: &mut [f64],
    p: Plan,
    segments: usize,
    report: &mut Report,
) -> Result<usize, Refusal>
    requires { Roomy p (length work.old) × (segments + 16 ≤ p.room) }
    ensures work_after { outcome_of p result report.new work.new ≡ start_of segments (task_at p work.old) }
    ensures stored { IfOk result (λ m. Stored (sized p m) (memory_at (sized p m) work.new)
        × Rising (memory_at (sized p m) work.new).t m × (task_at (sized p m) work.new ≡ task_at p work.old)
        × Roomy (sized p m) (length work.new) × (m ≤ segments + 5)) }
    ensures refinements_value { (report.new.refinements ≡ 0) × (report.new.rows ≤ 4294967296) × (report.new.intervals ≤ 20016) }
{
    *report = Report {
        refinements: 0,
        rows: 0,
        intervals: 0,
    };
    let bent = crate::linear::is_curved(work, p);
    let k = put_knots(work, p, bent);
    if segments < k + 1 {
        return Err(Refusal::InitialSegments);
    }
    let q = Plan { count: k + 6, ..p };
    crate::chord::begin(work, q);
    first_state(work, q, bent, report)?;
    Ok(k + 6)
}
