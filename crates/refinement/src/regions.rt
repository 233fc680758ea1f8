// The regions of a round, one after the other.
ghost use Rattle.std.specs.Prelude.{◌≡◌, ◌∷◌, ◌≤◌, ◌<◌, ◌*◌, length, drop, OnOk};
ghost use Rattle.seed.specs.Regions.{range, regions_of};
ghost use Rattle.smoothing.specs.Refusal.{answered};
ghost use Rattle.smoothing.specs.Round.{strength_of, refit_all};
ghost use Rattle.refinement.specs.Memory.{Roomy, Wide, memory_at, task_at, state_at, locations_at, Stored};
ghost use Rattle.refinement.specs.Refit.{Same, More, Spare};
ghost use Rattle.running_report.specs.Counted.{counts_of};

use crate::plan::Plan;
use running_report::Report;
use seed::Region;
use smoothing::Refusal;

// The region of the locations from `from` on, of which there are `count`.
fn region_at(work: &[f64], p: Plan, count: usize, from: usize) -> Region
    requires { Roomy p (length work.now) × (from < count) × (count ≤ 3 * p.room) }
    ensures work_value { regions_of (memory_at p work.now).t p.count (drop from (locations_at p count work.now))
        ≡ range result.a result.z ∷ regions_of (memory_at p work.now).t p.count
        (drop result.next (locations_at p count work.now)) }
    ensures a_le_z { (result.a ≤ result.z) × (result.z ≤ p.count) × (from < result.next) × (result.next ≤ count) }
{
    let t = crate::plan::knots(work, p);
    let x = crate::plan::locations(work, p, count);
    seed::next_region(t, p.count, x, from)
}

// `for (a, z) in regions(&b, &locations)`, of which there are `count`.
pub fn refit_all(
    work: &mut [f64],
    p: Plan,
    count: usize,
    strength: f64,
    report: &mut Report,
) -> Result<(), Refusal>
    requires roomy { Roomy p (length work.old) × (count ≤ p.room)
        × Wide (memory_at p work.old).t p.count × Stored p (memory_at p work.old) }
    requires strength_value { (strength ≡ strength_of report.old.refinements) × Spare count report.old }
    ensures work_after { answered result (state_at p (counts_of report.new) work.new)
        ≡ refit_all (task_at p work.old)
        (regions_of (memory_at p work.old).t p.count (locations_at p count work.old))
        (state_at p (counts_of report.old) work.old) }
    ensures same { OnOk result (Same (memory_at p work.old) (memory_at p work.new)) }
    ensures refinements_value { (report.new.refinements ≡ report.old.refinements) × More count report.old report.new }
{
    let mut from = 0;
    // From region to region: each says where the next begins.
    while from < count {
        let r = region_at(work, p, count, from);
        crate::refit::refit(work, p, r.a, r.z, strength, report)?;
        from = r.next;
    }
    Ok(())
}
