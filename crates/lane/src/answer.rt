// From the bytes of a job to the text of its answer.
ghost use Rattle.std.specs.Prelude.{◌≡◌, List, ℕ, ◌+◌, ◌*◌, ◌≤◌, length, take};
ghost use Rattle.smoothing.specs.Answer.Answer.{done};
ghost use Rattle.smoothing.specs.Build.{Result, build_of};
ghost use Rattle.building.specs.Outcome.{outcome_of, reported};
ghost use Rattle.lane.specs.Lane.{request_in, lane_of};
ghost use Rattle.lane.specs.Printed.{printed_of};
ghost use Rattle.lane.specs.Room.{Lent, Small};

use crate::lines;
use building::{Answer, Axes, Limits, Request, Tolerance};
use curve::Mode;
use job::Counts;
use request::parameters::Spacing;

// `build`, of a job with these counts, whose tolerance and points stand in the first cells.
fn build(
    c: Counts,
    cells: &[f64],
    work: &mut [f64],
    breaks: &mut [f64],
    coefficients: &mut [f64],
    other_breaks: &mut [f64],
    other_coefficients: &mut [f64],
    errors: &mut [f64],
) -> Answer
    requires { Small c × Lent 256 (length cells.now) (length work.old) (length breaks.old) (length coefficients.old)
        (length other_breaks.old) (length other_coefficients.old) (length errors.old) }
    ensures result_value { outcome_of result ≡ reported (build_of (request_in c cells.now)) }
    ensures errors_after { (x : Result) → build_of (request_in c cells.now) ≡ done x
        → take c.d errors.new ≡ x.report.errors }
{
    let end = 1 + c.d * c.n;
    let r = Request {
        points: &cells[1..end],
        d: c.d,
        n: c.n,
        axes: Axes::All,
        tolerance: Tolerance::Uniform(cells[0]),
        spacing: Spacing::Even,
        parameters: &cells[0..0],
        limits: Limits {
            refinements: c.refinements,
            segments: c.segments,
        },
    };
    let built = building::build(
        &r,
        Mode::Error,
        work,
        breaks,
        coefficients,
        other_breaks,
        other_coefficients,
        errors,
    );
    built.answer
}

// The text of the answer to a job, from the start of `out` on, and its length. It is that of every input
// whose first 1,621 bytes these are.
pub(crate) fn answer(
    bytes: &[u8],
    out: &mut [u8],
    cells: &mut [f64],
    work: &mut [f64],
    breaks: &mut [f64],
    coefficients: &mut [f64],
    other_breaks: &mut [f64],
    other_coefficients: &mut [f64],
    errors: &mut [f64],
) -> usize
    requires { Lent (length out.old) (length cells.old) (length work.old) (length breaks.old)
        (length coefficients.old) (length other_breaks.old) (length other_coefficients.old) (length errors.old) }
    ensures upper_bound { result ≤ length out.old }
    ensures out_after { take result out.new ≡ printed_of (lane_of bytes.now) }
    ensures by_index { (input : List ℕ) → take 1621 input ≡ bytes.now → take result out.new ≡ printed_of (lane_of input) }
{
    match job::read(bytes, cells) {
        Err(refusal) => lines::refused(refusal.number(), out),
        Ok(counts) => {
            let told = build(
                counts,
                cells,
                work,
                breaks,
                coefficients,
                other_breaks,
                other_coefficients,
                errors,
            );
            let d = counts.d;
            lines::answered(told, &errors[0..d], out)
        }
    }
}
