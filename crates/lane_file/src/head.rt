// What a file begins with, and whether it reads.
ghost use Rattle.std.specs.Prelude.{MatchOption, ◌≡◌, ◌+◌, ◌≤◌, ◌<◌, length, drop};
ghost use Rattle.forms.specs.Read.{bad};
ghost use Rattle.forms.specs.Form.{read_whole};
ghost use Rattle.lane_file.specs.File.{tail_form, break_count, head_form, file_form};
ghost use Rattle.lane_file.specs.Reading.{AxesAt, tail_in, tail_end, HeadAt, word_count, FileAt};

use forms::number_at;

// Some axes that follow one another: the first sixteen, 0 behind them, and the place after all of them.
#[derive(Clone, Copy)]
struct Axes {
    axes: [usize; 16],
    next: usize,
}

// The k axes from a place on; none, where they do not read.
fn axes_at(file: &[u8], at: usize, k: usize) -> Option<Axes>
    requires { at ≤ length file.now }
    ensures { AxesAt file.now at k result }
{
    let mut axes = [0; 16];
    let mut next = at;
    for i in 0..k {
        let axis = number_at(file, next)?;
        if i < 16 {
            axes[i] = axis.value;
        }
        next = axis.next;
    }
    Some(Axes { axes, next })
}

// The mode and both segment counts, and the place after them.
#[derive(Clone, Copy)]
struct Tail {
    mode: usize,
    segments: usize,
    other_segments: usize,
    next: usize,
}

// The last of the numbers of modes.
const LAST_MODE: usize = 1;

// They, from a place on; none, where they do not read.
fn tail_at(file: &[u8], at: usize) -> Option<Tail>
    ensures tail { tail_in file.now result ≡ tail_form.read (drop at file.now) }
    ensures end { tail_end result ≤ length file.now }
{
    let mode = number_at(file, at)?;
    if LAST_MODE < mode.value {
        return None;
    }
    let segments = number_at(file, mode.next)?;
    let other_segments = number_at(file, segments.next)?;
    Some(Tail {
        mode: mode.value,
        segments: segments.value,
        other_segments: other_segments.value,
        next: other_segments.next,
    })
}

// What a file begins with, and the place after it; of more than sixteen axes the first sixteen.
#[derive(Clone, Copy)]
pub(crate) struct FoundHead {
    pub(crate) d: usize,
    pub(crate) k: usize,
    pub(crate) axes: [usize; 16],
    pub(crate) mode: usize,
    pub(crate) segments: usize,
    pub(crate) other_segments: usize,
    pub(crate) next: usize,
}

// What the file begins with; none, where that does not read.
fn head_of(file: &[u8]) -> Option<FoundHead>
    ensures { MatchOption result (head_form.read file.now ≡ bad) (λ head. HeadAt file.now head) }
{
    let d = number_at(file, 0)?;
    let k = number_at(file, d.next)?;
    if d.value < k.value {
        return None;
    }
    let list = axes_at(file, k.next, k.value)?;
    let axes = list.axes;
    let tail = tail_at(file, list.next)?;
    Some(FoundHead {
        d: d.value,
        k: k.value,
        axes,
        mode: tail.mode,
        segments: tail.segments,
        other_segments: tail.other_segments,
        next: tail.next,
    })
}

// The breaks of n segments.
pub(crate) fn break_count(n: usize) -> usize
    requires { n < 2097152 }
    ensures { (result ≡ break_count n) × (result ≤ n + 1) }
{
    if n == 0 { 0 } else { n + 1 }
}

// How many numbers follow the head.
fn word_count(d: usize, k: usize, segments: usize, other_segments: usize) -> usize
    requires { (d < 2097152) × (k ≤ d) × (segments < 2097152) × (other_segments < 2097152) }
    ensures { (result ≡ word_count d k segments other_segments) × (result < 1125899906842624) }
{
    2 + break_count(segments)
        + 6 * (segments * k)
        + break_count(other_segments)
        + 6 * (other_segments * (d - k))
}

// What the file begins with, where all of it reads: as many bytes follow as the numbers have.
pub(crate) fn whole_head(file: &[u8]) -> Option<FoundHead>
    ensures { MatchOption result (read_whole file_form file.now ≡ bad) (λ head. FileAt file.now head) }
{
    let head = head_of(file)?;
    let count = word_count(head.d, head.k, head.segments, head.other_segments);
    if file.len() - head.next != 8 * count {
        return None;
    }
    Some(head)
}
