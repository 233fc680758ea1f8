// `build`: a request smoothed from end to end.
ghost use Rattle.std.specs.Prelude.{◌≡◌, cond, eqb, ◌+◌, ◌-◌, ◌*◌, ◌≤◌, ◌<◌, max, length};
ghost use Rattle.checks.specs.Request.{limits_of, lane_of};
ghost use Rattle.checks.specs.Checks.{refusal_before};
ghost use Rattle.request.specs.declared.parameters.Spacing.TheVariants.{Listed};
ghost use Rattle.request.specs.Parameters.{parameter_list};
ghost use Rattle.window.specs.Cells.{at};
ghost use Rattle.smoothing.specs.Answer.Answer.{done};
ghost use Rattle.smoothing.specs.Build.{checked_of};
ghost use Rattle.curve.specs.Form.{no_curve};
ghost use Rattle.building.specs.Outcome.{outcome_of, refused_by, reported, curve_after, results, results_after, work_after};
ghost use Rattle.building.specs.Answered.{answer_to, Domain, Fitting, Ran, Writable, results_from, report_in, curve_in};

use crate::answers::Refusal;
use crate::compute::Computed;
use crate::{Answer, Report, answers, compute};
use checks::{Request, Room, choices, refusals};
use curve::form::no_curve;
use curve::{Curve, Mode};
use refinement::plan::Plan;

// E of document 01: room for the waypoints and for the segments.
fn room_of(n: usize, segments: usize) -> usize
    requires { (n ≤ 20000) × (segments ≤ 20000) }
    ensures { result ≡ max n segments + 16 }
{
    n.max(segments) + 16
}

// The selected axes, k of them, how many other axes there are, and what was computed.
#[derive(Clone, Copy)]
pub struct Run {
    pub axes: [usize; 16],
    pub k: usize,
    pub j: usize,
    pub computed: Computed,
}

// What is computed once the checks 1 to 5 and 26 let the request through.
fn gather(r: &Request, work: &mut [f64]) -> Result<Run, Refusal>
    requires domain { Domain r.now.d r.now.n (limits_of r.now.limits) (length r.now.points.now) (length work.old) }
    requires points_value { refusal_before (lane_of r.now) ≡ 0 }
    ensures { Ran (lane_of r.now) (limits_of r.now.limits) result work.new }
{
    let chosen = choices::chosen(r.axes, r.d);
    let k = chosen.count;
    let eps = choices::tolerances_of(r.tolerance, k);
    let rest = choices::others(&chosen, r.d);
    let room = room_of(r.n, r.limits.segments);
    let p = Plan {
        axes: k,
        samples: r.n,
        room,
        count: 6,
    };
    let computed = compute::compute(work, p, r, &chosen, &eps, &rest)?;
    Ok(Run {
        axes: chosen.axes,
        k,
        j: rest.count,
        computed,
    })
}

// The checks from 1 on, and all that is computed, in the work slice alone.
fn checked(r: &Request, work: &mut [f64]) -> Result<Run, Refusal>
    requires { Domain r.now.d r.now.n (limits_of r.now.limits) (length r.now.points.now) (length work.old) }
    ensures { Ran (lane_of r.now) (limits_of r.now.limits) result work.new }
{
    refusals::refusal_before(r)?;
    gather(r, work)
}

// The answer to a request, and the curve. The curve holds an array, so that it stands beside the enum.
#[derive(Clone, Copy)]
pub struct Built {
    pub answer: Answer,
    pub curve: Curve,
}

fn refuse(e: Refusal, mode: Mode) -> Built
    ensures { (outcome_of result.answer ≡ refused_by e) × (result.curve ≡ no_curve mode) }
{
    Built {
        answer: answers::answer_of(e),
        curve: no_curve(mode),
    }
}

// Both polynomials and the errors, from the work slice to the result slices.
fn write_results(
    p: Plan,
    j: usize,
    c: Computed,
    work: &[f64],
    breaks: &mut [f64],
    coefficients: &mut [f64],
    other_breaks: &mut [f64],
    other_coefficients: &mut [f64],
    errors: &mut [f64],
)
    requires { Writable p j c (length work.now) (results breaks.old coefficients.old other_breaks.old
        other_coefficients.old errors.old) }
    ensures { results breaks.new coefficients.new other_breaks.new
        other_coefficients.new errors.new
        ≡ results_from p j c work.now (results breaks.old coefficients.old
        other_breaks.old other_coefficients.old errors.old) }
{
    let e = p.room;
    let cells = 14 * e + 10 * (e * p.axes);
    work_slice::put_selected(work, p, breaks, coefficients);
    work_slice::put_other(
        &work[cells..],
        e,
        p.samples,
        j,
        c.other_segments,
        other_breaks,
        other_coefficients,
    );
    let from = c.errors;
    work_slice::put_errors(&from, p.axes, errors);
}

// The report and the curve of an accepted request.
fn accept(run: Run, r: &Request, mode: Mode) -> Built
    requires { (2 ≤ r.now.n) × (r.now.n ≤ 20000) × (5 ≤ run.computed.count) × (r.now.n * r.now.d ≤ length r.now.points.now)
        × (r.now.spacing ≡ Listed → r.now.n ≤ length r.now.parameters.now) }
    ensures answer_value { outcome_of result.answer ≡ done (report_in run) }
    ensures curve_value { result.curve ≡ curve_in run r.now.d
        (at (parameter_list r.now.spacing r.now.parameters.now r.now.points.now r.now.d r.now.n) 0)
        (at (parameter_list r.now.spacing r.now.parameters.now r.now.points.now r.now.d r.now.n) (r.now.n - 1)) mode }
{
    let c = run.computed;
    let work = c.report;
    let segments = c.count - 5;
    let others = if run.j == 0 { 0 } else { c.other_segments };
    let axes = run.axes;
    let start = request::parameters::first(r.spacing, r.parameters, r.n);
    let end = request::parameters::last(r.spacing, r.parameters, r.points, r.d, r.n);
    let answer = Answer::Accepted(Report {
        segments,
        interpolated_segments: others,
        refinements: work.refinements,
        fitting_rows: work.rows,
        checked_intervals: work.intervals,
    });
    let curve = Curve {
        d: r.d,
        k: run.k,
        axes,
        start,
        end,
        mode,
        segments,
        other_segments: others,
    };
    Built { answer, curve }
}

// From the check 1 on; what the work slice holds is left there.
fn finish(
    r: &Request,
    mode: Mode,
    work: &mut [f64],
    breaks: &mut [f64],
    coefficients: &mut [f64],
    other_breaks: &mut [f64],
    other_coefficients: &mut [f64],
    errors: &mut [f64],
) -> Built
    requires { Domain r.now.d r.now.n (limits_of r.now.limits) (length r.now.points.now) (length work.old)
        × Fitting r.now.d r.now.n (limits_of r.now.limits) (results
        breaks.old coefficients.old other_breaks.old other_coefficients.old errors.old) }
    ensures answer_value { outcome_of result.answer ≡ reported (checked_of (lane_of r.now) (limits_of r.now.limits)) }
    ensures curve_value { result.curve ≡ curve_after mode r.now.d (checked_of (lane_of r.now) (limits_of r.now.limits)) }
    ensures errors_after { results breaks.new coefficients.new other_breaks.new
        other_coefficients.new errors.new
        ≡ results_after (checked_of (lane_of r.now) (limits_of r.now.limits))
        (results breaks.old coefficients.old other_breaks.old other_coefficients.old
        errors.old) }
{
    match checked(r, work) {
        Ok(made) => {
            let p = Plan {
                axes: made.k,
                samples: r.n,
                room: room_of(r.n, r.limits.segments),
                count: made.computed.count,
            };
            write_results(
                p,
                made.j,
                made.computed,
                work,
                breaks,
                coefficients,
                other_breaks,
                other_coefficients,
                errors,
            );
            accept(made, r, mode)
        }
        Err(e) => refuse(e, mode),
    }
}

// The request, and what a query outside start to end is to get. The work slice is scratch: it ends all +0,
// unless 18, 19 or 20 turned the request away. The result slices change on acceptance only, in their first
// cells only: breaks and coefficients of the selected axes and of the other axes, as `curve` takes them, and
// the errors, in the order of the axes.
pub fn build(
    r: &Request,
    mode: Mode,
    work: &mut [f64],
    breaks: &mut [f64],
    coefficients: &mut [f64],
    other_breaks: &mut [f64],
    other_coefficients: &mut [f64],
    errors: &mut [f64],
) -> Built
    ensures answer_value { outcome_of result.answer
        ≡ reported (answer_to (lane_of r.now) (limits_of r.now.limits)
        work.old (results breaks.old coefficients.old other_breaks.old
        other_coefficients.old errors.old)) }
    ensures curve_value { result.curve
        ≡ curve_after mode r.now.d (answer_to (lane_of r.now) (limits_of r.now.limits)
        work.old (results breaks.old coefficients.old other_breaks.old
        other_coefficients.old errors.old)) }
    ensures work_after { work.new
        ≡ work_after (answer_to (lane_of r.now) (limits_of r.now.limits)
        work.old (results breaks.old coefficients.old other_breaks.old
        other_coefficients.old errors.old)) work.old }
    ensures errors_after { results breaks.new coefficients.new other_breaks.new
        other_coefficients.new errors.new
        ≡ results_after (answer_to (lane_of r.now) (limits_of r.now.limits)
        work.old (results breaks.old coefficients.old other_breaks.old
        other_coefficients.old errors.old))
        (results breaks.old coefficients.old other_breaks.old other_coefficients.old
        errors.old) }
{
    let room = Room {
        work: work.len(),
        breaks: breaks.len(),
        coefficients: coefficients.len(),
        other_breaks: other_breaks.len(),
        other_coefficients: other_coefficients.len(),
        errors: errors.len(),
    };
    if let Err(refusal) = refusals::refusal_first(r, room) {
        return refuse(Refusal::Input(refusal), mode);
    }
    let built = finish(
        r,
        mode,
        work,
        breaks,
        coefficients,
        other_breaks,
        other_coefficients,
        errors,
    );
    window::clear(work);
    built
}
