// One round of the source's `build`, from its locations on: the knots, then the regions.
ghost use Rattle.std.specs.Prelude.{◌≡◌, ◌+◌, ◌≤◌, length, OnOk};
ghost use Rattle.smoothing.specs.Refusal.{answered};
ghost use Rattle.smoothing.specs.Round.{strength_of};
ghost use Rattle.smoothing.specs.Rising.{Rising, All, Number};
ghost use Rattle.refinement.specs.Memory.{Roomy, memory_at, task_at, state_at, locations_at, sized};
ghost use Rattle.refinement.specs.Refit.{More, Spare};
ghost use Rattle.running_report.specs.Counted.{counts_of};
ghost use Rattle.refinement.specs.Round.{round_with, Standing};

use crate::plan::Plan;
use running_report::Report;
use smoothing::Refusal;

// `0.001 * 0.25f64.powi(report.refinements as i32)`
fn strength_of(refinements: usize) -> f64
    requires { refinements ≤ 4294967295 }
    ensures { result ≡ strength_of refinements }
{
    let n = refinements as u32;
    0.001 * float::powi(0.25, n)
}

// The round with the `count` locations that lie in their place: so many controls more.
pub fn round_from(
    work: &mut [f64],
    p: Plan,
    count: usize,
    report: &mut Report,
) -> Result<(), Refusal>
    requires roomy { Roomy p (length work.old) × (p.count + count + 7 ≤ p.room)
        × Rising (memory_at p work.old).t p.count × All Number (locations_at p count work.old) }
    requires refinements_bound { (report.old.refinements ≤ 1000000) × Spare count report.old }
    ensures work_after { answered result (state_at (sized p (p.count + count)) (counts_of report.new) work.new)
        ≡ round_with (task_at p work.old) (locations_at p count work.old)
        (state_at p (counts_of report.old) work.old) }
    ensures standing { OnOk result (Standing p (p.count + count) work.old work.new) }
    ensures refinements_bound_2 { (report.new.refinements ≤ report.old.refinements + 1) × More count report.old report.new }
{
    crate::insertions::insert_all(work, p, count)?;
    let q = Plan {
        count: p.count + count,
        ..p
    };
    crate::insertions::rebuild(work, q);
    report.refinements += 1;
    let strength = strength_of(report.refinements);
    crate::regions::refit_all(work, q, count, strength, report)
}
