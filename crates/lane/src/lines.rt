// The lines of an answer, from the start of a buffer on.
ghost use Rattle.std.specs.Prelude.{◌≡◌, ◌++◌, ◌+◌, ◌*◌, ◌≤◌, length, take};
ghost use Rattle.smoothing.specs.Answer as answers;
ghost use Rattle.smoothing.specs.Answer.{number_of};
ghost use Rattle.smoothing.specs.Answer.Answer.{done, refused as Refused, exhausted as Exhausted};
ghost use Rattle.smoothing.specs.Build.{Result};
ghost use Rattle.building.specs.Outcome.{outcome_of, reported};
ghost use Rattle.lane.specs.Printed.{counts_text, error_line, error_lines, refusal_text, printed_of};

use crate::fields;
use building::{Answer, Report};

// `refused` and document 01's number.
fn refusal(number: u64, out: &mut [u8]) -> usize
    requires { 256 ≤ length out.old }
    ensures { (result ≤ 64) × (take result out.new ≡ refusal_text number) }
{
    let at = text::put(out, 0, b"refused");
    fields::number(out, at, number)
}

// The line of a refusal.
pub(crate) fn refused(number: u64, out: &mut [u8]) -> usize
    requires { 256 ≤ length out.old }
    ensures { (result ≤ 256) × (take result out.new ≡ printed_of (Refused number)) }
{
    let at = refusal(number, out);
    text::newline(out, at)
}

// The line of 14, with its ratio.
fn exhausted(ratio: f64, out: &mut [u8]) -> usize
    requires { 256 ≤ length out.old }
    ensures { (result ≤ 256) × (take result out.new ≡ printed_of (Exhausted ratio)) }
{
    let at = refusal(14, out);
    let at = text::put(out, at, b" ");
    let at = fields::float(out, at, ratio);
    text::newline(out, at)
}

// `accepted` and the five counts.
fn counts(report: Report, out: &mut [u8]) -> usize
    requires { 256 ≤ length out.old }
    ensures { (result ≤ 128) × (take result out.new ≡ counts_text report) }
{
    let at = text::put(out, 0, b"accepted");
    let at = fields::number(out, at, report.segments as u64);
    let at = fields::number(out, at, report.interpolated_segments as u64);
    let at = fields::number(out, at, report.refinements as u64);
    let at = fields::number(out, at, report.fitting_rows as u64);
    let at = fields::number(out, at, report.checked_intervals as u64);
    text::newline(out, at)
}

// A line for an axis's max error.
fn error_line(error: f64, out: &mut [u8], at: usize) -> usize
    requires { at + 17 ≤ length out.old }
    ensures upper_bound { result ≤ at + 17 }
    ensures out_after { take result out.new ≡ take at out.old ++ error_line error }
{
    let at = fields::float(out, at, error);
    text::newline(out, at)
}

// A line for each of some errors.
fn error_lines(errors: &[f64], out: &mut [u8], at: usize) -> usize
    requires { at + 17 * length errors.now ≤ length out.old }
    ensures upper_bound { result ≤ at + 17 * length errors.now }
    ensures out_after { take result out.new ≡ take at out.old ++ error_lines errors.now }
{
    let mut next = at;
    for error in errors {
        next = error_line(*error, out, next);
    }
    next
}

// The lines of an accepted lane.
fn accepted(report: Report, errors: &[f64], out: &mut [u8]) -> usize
    requires { (256 ≤ length out.old) × (length errors.now ≤ 2) }
    ensures { (result ≤ 256) × (take result out.new ≡ counts_text report ++ error_lines errors.now) }
{
    let at = counts(report, out);
    error_lines(errors, out, at)
}

// The lines of an answer of `build`, with the errors of its axes.
pub(crate) fn answered(answer: Answer, errors: &[f64], out: &mut [u8]) -> usize
    requires { (256 ≤ length out.old) × (length errors.now ≤ 2) }
    ensures upper_bound { result ≤ 256 }
    ensures out_after { (y : answers.Answer Result) → outcome_of answer ≡ reported y
        → ((x : Result) → y ≡ done x → errors.now ≡ x.report.errors) → take result out.new ≡ printed_of y }
{
    match answer {
        Answer::Accepted(report) => accepted(report, errors, out),
        Answer::RefinementsUsedUp(ratio) => exhausted(ratio, out),
        _ => refused(building::number(answer), out),
    }
}
