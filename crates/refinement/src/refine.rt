// Refinement: rounds until the worst bound is small enough, as many as are allowed.
ghost use Rattle.std.specs.Prelude.{◌≡◌, ◌+◌, ◌*◌, ◌≤◌, length, IfOk};
ghost use Rattle.smoothing.specs.Round.{worst_of, refine_of};
ghost use Rattle.smoothing.specs.Rising.{Rising};
ghost use Rattle.refinement.specs.Memory.{Roomy, memory_at, task_at, state_at, sized};
ghost use Rattle.refinement.specs.Refit.{More, Spare};
ghost use Rattle.running_report.specs.Counted.{counts_of};
ghost use Rattle.refinement.specs.Round.{Standing};
ghost use Rattle.refinement.specs.Refined.{tried, outcome_of, Stands};

use crate::plan::Plan;
use running_report::Report;
use smoothing::Refusal;

// `bounds.iter().copied().fold(0., f64::max)`
fn worst(work: &[f64], p: Plan) -> f64
    requires { Roomy p (length work.now) }
    ensures { result ≡ worst_of (memory_at p work.now).bounds }
{
    let bounds = crate::plan::bounds(work, p);
    let mut w = 0.0;
    for i in 0..bounds.len() {
        w = float::max(w, bounds[i]);
    }
    w
}

// One round with its locations, unless it would have more spans than `segments` (15):
// `b.m() - 5 + locations.len() > cfg.max_segments`. Gives the number of controls then.
fn try_round(
    work: &mut [f64],
    p: Plan,
    segments: usize,
    report: &mut Report,
) -> Result<usize, Refusal>
    requires roomy { Roomy p (length work.old) × (segments + 16 ≤ p.room) × Rising (memory_at p work.old).t p.count }
    requires refinements_bound { (report.old.refinements ≤ 1000000) × Spare 20016 report.old }
    ensures work_after { outcome_of p result report.new work.new
        ≡ tried segments (task_at p work.old) (state_at p (counts_of report.old) work.old) }
    ensures standing { IfOk result (λ m. Standing p m work.old work.new × (m ≤ segments + 5)) }
    ensures refinements_bound_2 { (report.new.refinements ≤ report.old.refinements + 1) × More 20016 report.old report.new }
{
    let count = crate::locations::locate(work, p);
    if segments < p.count - 5 + count {
        return Err(Refusal::SegmentsUsedUp);
    }
    crate::round::round_from(work, p, count, report)?;
    Ok(p.count + count)
}

// A round is made where at least so many are left.
const LEAST_LEFT: usize = 1;

// The source's `loop`, with `left` rounds still allowed: the number of controls where it settled, or 14 with the worst ratio of
// error to tolerance. Settled are bounds of at most 0.99.
pub fn refine(
    work: &mut [f64],
    p: Plan,
    segments: usize,
    left: usize,
    report: &mut Report,
) -> Result<usize, Refusal>
    requires roomy { Roomy p (length work.old) × (segments + 16 ≤ p.room) × Rising (memory_at p work.old).t p.count }
    requires left_bound { (report.old.refinements + left ≤ 1000000) × (report.old.rows + 85968065396736 * left ≤ 4611686018427387904)
        × (report.old.intervals + 400640256 * left ≤ 4611686018427387904) }
    ensures work_after { outcome_of p result report.new work.new
        ≡ refine_of segments left (task_at p work.old) (state_at p (counts_of report.old) work.old) }
    ensures stands { Stands p result work.old work.new }
{
    let mut m = p.count;
    let mut rest = left;
    loop {
        let q = Plan { count: m, ..p };
        let w = worst(work, q);
        if w <= 0.99 {
            return Ok(m);
        }
        if rest < LEAST_LEFT {
            return Err(Refusal::RefinementsUsedUp(w));
        }
        m = try_round(work, q, segments, report)?;
        rest -= 1;
    }
}
