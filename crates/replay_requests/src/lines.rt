// The line of a built request, and the tests of the lent cells.
ghost use Rattle.std.specs.Prelude.{◌≡◌, ◌++◌};
ghost use Rattle.listing.specs.Output.{printed, whole_text, refused_word};
ghost use Rattle.building.specs.Outcome.{outcome_of};
ghost use Rattle.replay_requests.specs.Lines.{wholes_text, report_text, part_text, results_text, ratio_text, told_text, built_text, ending};
ghost use Rattle.replay_requests.specs.Lines.{report_in as ReportIn, ratio_in as RatioIn, used_cells, used_by as UsedBy, buffers_of};
ghost use Rattle.replay_requests.specs.Lines.{each_of, is_mark, is_plus_zero, part_kept, part_cleared, results_kept, work_left};
ghost use Rattle.replay_requests.specs.Lines.{is_told as IsTold, as_promised};

use crate::parts;
use crate::parts::{Lent, MARK};
use building::{Answer, Built, Report};
use curve::Curve;
use listing::output::Output;
use listing::sizes;

// The cells of each result that an accepted request uses.
fn used_of(curve: Curve) -> Lent<usize>
    ensures { result ≡ used_cells curve }
{
    Lent {
        work: 0,
        breaks: sizes::breaks(curve.segments),
        coefficients: sizes::rows(curve.k, curve.segments),
        other_breaks: sizes::breaks(curve.other_segments),
        other_coefficients: sizes::rows(curve.d.saturating_sub(curve.k), curve.other_segments),
        errors: curve.k,
    }
}

// A refused request uses no cell.
fn used_by(told: Option<Report>, curve: Curve) -> Lent<usize>
    ensures { result ≡ UsedBy told curve }
{
    match told {
        Some(_) => used_of(curve),
        None => Lent {
            work: 0,
            breaks: 0,
            coefficients: 0,
            other_breaks: 0,
            other_coefficients: 0,
            errors: 0,
        },
    }
}

// The whole numbers of `list`.
fn wholes(list: &[usize], out: &mut Output)
    ensures { out.new ≡ printed out.old (wholes_text list.now) }
{
    for n in list {
        out.whole(*n as u64);
    }
}

// The report's counts, the axes, and the ends of the parameter.
fn report(report: Report, curve: Curve, out: &mut Output)
    ensures { out.new ≡ printed out.old (report_text report curve) }
{
    let counts = [
        report.segments,
        report.interpolated_segments,
        report.refinements,
        report.fitting_rows,
        report.checked_intervals,
    ];
    wholes(&counts, out);
    let axes = curve.axes;
    wholes(&axes[..curve.k.min(16)], out);
    out.cells(&[curve.start, curve.end]);
}

// The first n cells of a part.
fn part(buffer: &[f64], n: usize, out: &mut Output)
    ensures { out.new ≡ printed out.old (part_text buffer.now n) }
{
    if let Some(cells) = buffer.get(8..) {
        out.first_cells(cells, n);
    }
}

// The used cells of the results.
fn results(used: Lent<usize>, lent: Lent<&[f64]>, out: &mut Output)
    ensures { out.new ≡ printed out.old (results_text used (buffers_of lent.entry)) }
{
    part(lent.errors, used.errors, out);
    part(lent.breaks, used.breaks, out);
    part(lent.coefficients, used.coefficients, out);
    part(lent.other_breaks, used.other_breaks, out);
    part(lent.other_coefficients, used.other_coefficients, out);
}

// Whether there are cells from `from` up to `to`, all marked still.
fn is_marked(buffer: &[f64], from: usize, to: usize) -> bool
    ensures { result ≡ each_of is_mark buffer.now from to }
{
    match buffer.get(from..to) {
        Some(cells) => cells.iter().all(|x| *x == MARK),
        None => false,
    }
}

// Whether there are cells from `from` up to `to`, all +0; 1 over -0 is not above 0.
fn is_zero(buffer: &[f64], from: usize, to: usize) -> bool
    ensures { result ≡ each_of is_plus_zero buffer.now from to }
{
    match buffer.get(from..to) {
        Some(cells) => cells.iter().all(|x| *x == 0.0 && 0.0 < 1.0 / *x),
        None => false,
    }
}

// Whether only the first `used` cells of a part that ends at `end` were written, and none around it.
fn is_kept(buffer: &[f64], end: usize, used: usize) -> bool
    ensures { result ≡ part_kept buffer.now end used }
{
    end <= buffer.len()
        && parts::holds(used, end)
        && is_marked(buffer, 0, 8)
        && is_marked(buffer, used + 8, end + 8)
}

// Whether all cells of a part that ends at `end` are cleared, and none was written around it.
fn is_clear(buffer: &[f64], end: usize) -> bool
    ensures { result ≡ part_cleared buffer.now end }
{
    end <= buffer.len()
        && is_marked(buffer, 0, 8)
        && is_zero(buffer, 8, end)
        && is_marked(buffer, end, end + 8)
}

// Whether nothing but the used cells of the results was written.
fn are_kept(p: Lent<usize>, used: Lent<usize>, lent: Lent<&[f64]>) -> bool
    ensures { result ≡ results_kept p used (buffers_of lent.entry) }
{
    is_kept(lent.breaks, p.breaks, used.breaks)
        && is_kept(lent.coefficients, p.coefficients, used.coefficients)
        && is_kept(lent.other_breaks, p.other_breaks, used.other_breaks)
        && is_kept(
            lent.other_coefficients,
            p.other_coefficients,
            used.other_coefficients,
        )
        && is_kept(lent.errors, p.errors, used.errors)
}

// Whether the work slice is as the answer says: untouched by 18, 19 and 20, all +0 otherwise.
fn is_left(work: &[f64], end: usize, number: u64) -> bool
    ensures { result ≡ work_left work.now end number }
{
    if 17 < number && number < 21 {
        return is_kept(work, end, 0);
    }
    is_clear(work, end)
}

// Whether an accepted curve has the report's segments.
fn is_told(told: Option<Report>, curve: Curve) -> bool
    ensures { result ≡ IsTold told curve }
{
    match told {
        Some(report) => {
            curve.segments == report.segments
                && curve.other_segments == report.interpolated_segments
        }
        None => true,
    }
}

// Whether every lent cell is as it should be, and the curve is the report's.
fn is_promised(
    told: Option<Report>,
    number: u64,
    curve: Curve,
    p: Lent<usize>,
    lent: Lent<&[f64]>,
) -> bool
    ensures { result ≡ as_promised told number curve p (buffers_of lent.entry) }
{
    is_told(told, curve)
        && is_left(lent.work, p.work, number)
        && are_kept(p, used_by(told, curve), lent)
}

// The end of the line: a word first where a cell or a count of segments is not as it should be.
fn end(good: bool, out: &mut Output)
    ensures { out.new ≡ printed out.old (ending good) }
{
    if good {
        out.end();
        return;
    }
    out.text(b" cells");
    out.end();
}

// The report of an accepted request.
fn report_in(answer: Answer) -> Option<Report>
    ensures { result ≡ ReportIn (outcome_of answer) }
{
    match answer {
        Answer::Accepted(report) => Some(report),
        _ => None,
    }
}

// The ratio that 14 carries.
fn ratio_in(answer: Answer) -> Option<f64>
    ensures { result ≡ RatioIn (outcome_of answer) }
{
    match answer {
        Answer::RefinementsUsedUp(x) => Some(x),
        _ => None,
    }
}

// A refusal's number and ratio.
fn refused(number: u64, ratio: Option<f64>, out: &mut Output)
    ensures { out.new ≡ printed out.old (refused_word ++ (whole_text number ++ ratio_text ratio)) }
{
    out.text(b" refused");
    out.whole(number);
    if let Some(x) = ratio {
        out.cell(x);
    }
}

// An accepted request's report and results.
fn accepted(told: Report, curve: Curve, lent: Lent<&[f64]>, out: &mut Output)
    ensures { out.new ≡ printed out.old (report_text told curve ++ results_text (used_cells curve) (buffers_of lent.entry)) }
{
    report(told, curve, out);
    results(used_of(curve), lent, out);
}

// What is told of an accepted request, or of a refused one.
fn answer(
    told: Option<Report>,
    number: u64,
    ratio: Option<f64>,
    curve: Curve,
    lent: Lent<&[f64]>,
    out: &mut Output,
)
    ensures { out.new ≡ printed out.old (told_text told number ratio curve (buffers_of lent.entry)) }
{
    match told {
        Some(report) => accepted(report, curve, lent, out),
        None => refused(number, ratio, out),
    }
}

// The line of a request.
pub fn line(built: Built, p: Lent<usize>, lent: Lent<&[f64]>, out: &mut Output)
    ensures { out.new ≡ printed out.old (built_text built p (buffers_of lent.entry)) }
{
    let told = report_in(built.answer);
    let number = building::number(built.answer);
    out.text(b"build");
    answer(told, number, ratio_in(built.answer), built.curve, lent, out);
    end(is_promised(told, number, built.curve, p, lent), out);
}
