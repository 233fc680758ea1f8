// A window of controls fitted anew, and what follows from it: its segments and its intervals. Only what
// the window reaches is computed again.
ghost use Rattle.std.specs.Prelude.{◌≡◌, ◌+◌, ◌-◌, ◌≤◌, ◌<◌, max, min, length};
ghost use Rattle.fit.specs.Fit.{answer_of};
ghost use Rattle.polynomial.specs.Outcome.{number_of};
ghost use Rattle.smoothing.specs.State.{fit_in, polynomial_in};
ghost use Rattle.smoothing.specs.Round.{strength_of};
ghost use Rattle.refinement.specs.Memory.{Roomy, Wide, memory_at, with_controls, with_coefficients, with_bounds, task_at, spline_at};
ghost use Rattle.refinement.specs.Memory.{Stored};
ghost use Rattle.refinement.specs.Kept.{Stale};
ghost use Rattle.refinement.specs.Refit.{Same, audit_over, Spare, Refittable, Audits, AfterRefit};

use crate::plan::Plan;
use fit::Counts;
use fitting_rows::Place;
use normal::Unsolved;
use polynomial::audit::{Audited, Parts};
use running_report::Report;
use smoothing::Refusal;

// `fit(&mut b, &s, &y, a, z, strength)`: the controls of the window [a, z) fitted anew; no other array changes.
pub fn fit_in(
    work: &mut [f64],
    p: Plan,
    a: usize,
    z: usize,
    strength: f64,
) -> Result<Counts, Unsolved>
    requires { Roomy p (length work.old) × (a ≤ z) × (z ≤ p.count) }
    ensures result_value { answer_of result
        ≡ (fit_in (task_at p work.old) a z strength (spline_at p work.old)).answered }
    ensures work_after { memory_at p work.new
        ≡ with_controls (fit_in (task_at p work.old) a z strength (spline_at p work.old)).controls
        (memory_at p work.old) }
{
    let e = p.room;
    let b = e * p.axes;
    let system = 6 * e + 3 * b;
    let place = Place {
        knots: e + b,
        controls: 2 * e + b,
        count: p.count,
        axes: p.axes,
        parameters: 0,
        points: e,
        samples: p.samples,
        system,
    };
    let n = z - a;
    let end = system + (6 * n + n * p.axes + n);
    fit::fit(&mut work[0..end], place, a, z, strength)
}

// The segments of the spans that the controls [a, z) reach, computed anew, after these controls changed.
pub fn refresh(work: &mut [f64], p: Plan, a: usize, z: usize)
    requires { Roomy p (length work.old) × (a ≤ z) × (z ≤ p.count)
        × Wide (memory_at p work.old).t p.count × Stale p a z (memory_at p work.old) }
    ensures work_after { memory_at p work.new
        ≡ with_coefficients (polynomial_in p.axes (spline_at p work.old)).coefficients (memory_at p work.old) }
    ensures stored { Stored p (memory_at p work.new) }
{
    let s = crate::plan::spline_of(p);
    let b = p.room * p.axes;
    let from = a.max(5);
    let to = (z + 5).min(p.count);
    bspline::segments::put_spans(work, s, 13 * p.room + 4 * b, 14 * p.room + 4 * b, from, to);
}

// `audit(&b.polynomial(), ..)`, the polynomial as it is stored: the intervals from `first` up to `last`.
pub fn audit_in(work: &mut [f64], p: Plan, first: usize, last: usize) -> Audited
    requires { Roomy p (length work.old) × (first < p.samples) × (last < p.samples) }
    ensures outcome_value { (result.outcome ≡ (audit_over p first last (memory_at p work.old)).outcome)
        × (result.checked ≡ (audit_over p first last (memory_at p work.old)).checked) }
    ensures work_after { memory_at p work.new
        ≡ with_bounds (audit_over p first last (memory_at p work.old)).bounds
        (audit_over p first last (memory_at p work.old)).witness (memory_at p work.old) }
    ensures checked_le_samples { result.checked ≤ p.samples }
{
    let e = p.room;
    let b = e * p.axes;
    let parts = Parts {
        parameters: 0,
        points: e,
        bounds: 2 * e + 2 * b,
        witness: 2 * e + 3 * b,
        breaks: 13 * e + 4 * b,
        coefficients: 14 * e + 4 * b,
        segments: p.count - 5,
        samples: p.samples,
        axes: p.axes,
    };
    polynomial::audit::audit(work, parts, first, last)
}

// What follows a fit of [a, z) to the samples from `first` up to `last`: the segments are made anew, and the intervals
// audited from `first.saturating_sub(1)` up to `last.min(n - 1)`.
fn follow(work: &mut [f64], p: Plan, a: usize, z: usize, first: usize, last: usize) -> Audited
    requires roomy { Roomy p (length work.old) × (a ≤ z) × (z ≤ p.count)
        × Wide (memory_at p work.old).t p.count × Stale p a z (memory_at p work.old) }
    requires first_le_samples { first ≤ p.samples }
    ensures audits { Audits p (first - 1) (min last (p.samples - 1)) work.old work.new (number_of result.outcome) result.checked }
    ensures stored { Stored p (memory_at p work.new) × Same (memory_at p work.old) (memory_at p work.new) }
    ensures checked_few { result.checked ≤ 20016 }
{
    refresh(work, p, a, z);
    audit_in(work, p, first.saturating_sub(1), last.min(p.samples - 1))
}

// The source's turn for one region: the controls [a, z) fitted anew, 9, 10, 11, and the intervals that they reach audited,
// 12, 13. Adds its rows and its intervals to the running report.
pub fn refit(
    work: &mut [f64],
    p: Plan,
    a: usize,
    z: usize,
    strength: f64,
    report: &mut Report,
) -> Result<(), Refusal>
    requires { Refittable p a z work.old × (strength ≡ strength_of report.old.refinements) × Spare 1 report.old }
    ensures { AfterRefit p a z work.old work.new report.old report.new result }
{
    let fitted = fit_in(work, p, a, z, strength)?;
    running_report::add_rows(report, fitted.rows);
    let audited = follow(work, p, a, z, fitted.first, fitted.last);
    running_report::add_intervals(report, audited.checked);
    audited.outcome?;
    Ok(())
}
