// The lines of a run.
ghost use Rattle.std.specs.Prelude.{IfSome, ◌++◌, ◌≡◌, ◌+◌, ◌≤◌, pos, ◌-ℤ◌, length, take};
ghost use Rattle.text.specs.Decimal.{decimal_of, whole_text};
ghost use Rattle.text.specs.Lines.{line};
ghost use Rattle.lane_totals.specs.Kept.{kept_as, totals_in};
ghost use Rattle.season.specs.Printed.{maybe_text, lines_of, printed_of};
ghost use Rattle.season.specs.Run.{Running, outcome_of};

use lane_totals::sums::Sums;

// A line with a whole number.
fn number_line(out: &mut [u8], at: usize, n: u64) -> usize
    requires { at + 22 ≤ length out.old }
    ensures upper_bound { result ≤ at + 22 }
    ensures out_after { take result out.new ≡ take at out.old ++ line (decimal_of n) }
{
    let next = text::number(out, at, n);
    text::newline(out, next)
}

// A line with a - b.
fn difference_line(out: &mut [u8], at: usize, a: u64, b: u64) -> usize
    requires { at + 22 ≤ length out.old }
    ensures upper_bound { result ≤ at + 22 }
    ensures out_after { take result out.new ≡ take at out.old ++ line (whole_text (pos a -ℤ pos b)) }
{
    let next = text::difference(out, at, a, b);
    text::newline(out, next)
}

// A line with a height that is kept, or `none` where there is no segment.
fn height_line(out: &mut [u8], at: usize, segments: u64, n: u64) -> usize
    requires { at + 22 ≤ length out.old }
    ensures upper_bound { result ≤ at + 22 }
    ensures out_after { take result out.new ≡ take at out.old ++ line (maybe_text (kept_as segments n)) }
{
    if segments == 0 {
        return text::put(out, at, b"none\n");
    }
    difference_line(out, at, n, 2000000)
}

// The first three lines: the number of lanes, of their segments, and the lowest height.
fn first_lines(lanes: u64, segments: u64, lowest: u64, out: &mut [u8]) -> usize
    requires { 256 ≤ length out.old }
    ensures { (result ≤ 66) × (take result out.new
        ≡ line (decimal_of lanes) ++ (line (decimal_of segments) ++ line (maybe_text (kept_as segments lowest)))) }
{
    let second = number_line(out, 0, lanes);
    let third = number_line(out, second, segments);
    height_line(out, third, segments, lowest)
}

// The six lines.
fn all_lines(sums: Sums, out: &mut [u8]) -> usize
    requires { (256 ≤ length out.old) × (sums.segments ≤ 1310700000) }
    ensures { (result ≤ 256) × (take result out.new ≡ lines_of (totals_in sums)) }
{
    let segments = sums.segments;
    let sum = sums.sum;
    let away = sums.turned_away;
    let highest = sums.highest;
    let fourth = first_lines(sums.lanes, segments, sums.lowest, out);
    let fifth = height_line(out, fourth, segments, highest);
    let sixth = difference_line(out, fifth, sum, 512000000 * segments);
    number_line(out, sixth, away)
}

// The text of a run that stopped, or of its totals, from the start of `out` on, and its length.
pub fn answer(outcome: Option<Sums>, out: &mut [u8]) -> usize
    requires { (256 ≤ length out.old) × IfSome outcome Running }
    ensures { (result ≤ 256) × (take result out.new ≡ printed_of (outcome_of outcome)) }
{
    match outcome {
        None => text::put(out, 0, b"refused 30\n"),
        Some(sums) => all_lines(sums, out),
    }
}
