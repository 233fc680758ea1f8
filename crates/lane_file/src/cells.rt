// The curve in the bytes of a file, taken out of them.
ghost use Rattle.std.specs.Prelude.{◌≡◌, false, ◌++◌, ◌+◌, ◌-◌, ◌*◌, ◌≤◌, ◌<◌, length};
ghost use Rattle.window.specs.Cells.{onto};
ghost use Rattle.window.specs.Rows.{written};
ghost use Rattle.lane_file.specs.File.{break_count, coefficient_count};
ghost use Rattle.lane_file.specs.Curves.{cells, mode_of, width_patterns};
ghost use Rattle.lane_file.specs.Outcome.{onto_cells};
ghost use Rattle.lane_file.specs.Reading.{breaks_at, coefficients_at, cells_at, curve_at, FileAt, short_of};

use crate::formed::other_place;
use crate::head::{FoundHead, break_count};
use curve::{Curve, Mode};
use encoding::{float, floats, pattern, wholes};

// The mode of a number in a file.
fn mode_of(number: usize) -> Mode
    ensures { result ≡ mode_of number }
{
    if number == 0 {
        Mode::Error
    } else {
        Mode::Clamp
    }
}

// The curve without its slices.
pub(crate) fn curve_at(file: &[u8], head: FoundHead) -> Curve
    requires { FileAt file.now head }
    ensures { result ≡ curve_at file.now head }
{
    let axes = head.axes;
    let next = head.next;
    let second = next + 8;
    let set = second + 8;
    let start = float(&file[next..second]);
    let end = float(&file[second..set]);
    let mode = mode_of(head.mode);
    Curve {
        d: head.d,
        k: head.k,
        axes,
        start,
        end,
        mode,
        segments: head.segments,
        other_segments: head.other_segments,
    }
}

// Whether one of the lent slices, of these lengths, is too short.
pub(crate) fn too_short(
    file: &[u8],
    head: FoundHead,
    breaks: usize,
    coefficients: usize,
    other_breaks: usize,
    other_coefficients: usize,
) -> bool
    requires { FileAt file.now head }
    ensures { result ≡ short_of head breaks coefficients other_breaks other_coefficients }
{
    let n = head.segments;
    let others = head.other_segments;
    breaks < break_count(n)
        || coefficients < 6 * (n * head.k) + n
        || other_breaks < break_count(others)
        || other_coefficients < 6 * (others * (head.d - head.k)) + others
}

// The patterns of the widths of the segments between the breaks, to the cells from `from` on.
fn put_widths(breaks: &[f64], from: usize, cells: &mut [u64])
    requires { from + (length breaks.now - 1) ≤ length cells.old }
    ensures { cells.new ≡ written from (width_patterns breaks.now) cells.old }
{
    for i in 0..breaks.len().saturating_sub(1) {
        cells[from + i] = pattern(breaks[i + 1] - breaks[i]);
    }
}

// The n segments with m axes from a place on, into the first cells of lent slices; the widths are those of
// the breaks.
fn read_set(
    file: &[u8],
    at: usize,
    n: usize,
    m: usize,
    breaks: &mut [f64],
    coefficients: &mut [u64],
)
    requires { (n < 2097152) × (at + 8 * (break_count n + coefficient_count n m) ≤ length file.now) × (break_count n ≤ length breaks.old)
        × (coefficient_count n m + n ≤ length coefficients.old) }
    ensures { (breaks.new ≡ onto (breaks_at file.now at n) breaks.old)
        × (coefficients.new ≡ onto (coefficients_at file.now at n m ++ width_patterns (breaks_at file.now at n))
        coefficients.old) }
{
    let count = break_count(n);
    let numbers = 6 * (n * m);
    let middle = at + 8 * count;
    let end = middle + 8 * numbers;
    floats(&file[at..middle], &mut breaks[0..count]);
    wholes(&file[middle..end], &mut coefficients[0..numbers]);
    put_widths(&breaks[0..count], numbers, coefficients);
}

// Both sets, into the first cells of lent slices.
pub(crate) fn read_sets(
    file: &[u8],
    head: FoundHead,
    breaks: &mut [f64],
    coefficients: &mut [u64],
    other_breaks: &mut [f64],
    other_coefficients: &mut [u64],
)
    requires file_at { FileAt file.now head }
    requires other_coefficients_value { short_of head (length breaks.old) (length coefficients.old) (length other_breaks.old)
        (length other_coefficients.old)
        ≡ false }
    ensures { cells breaks.new coefficients.new other_breaks.new other_coefficients.new
        ≡ onto_cells (cells_at file.now head) (cells breaks.old coefficients.old
        other_breaks.old
        other_coefficients.old) }
{
    let set = head.next + 16;
    read_set(file, set, head.segments, head.k, breaks, coefficients);
    let other = other_place(file, head);
    let axes = head.d - head.k;
    read_set(
        file,
        other,
        head.other_segments,
        axes,
        other_breaks,
        other_coefficients,
    );
}
