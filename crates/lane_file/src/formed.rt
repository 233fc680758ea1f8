// Whether the curve in the bytes of a file is well formed.
ghost use Rattle.std.specs.Prelude.{◌≡◌, List, ℕ, ◌+◌, ◌*◌, ◌≤◌, ◌<◌, length, Float};
ghost use Rattle.encoding.specs.Bytes.{floats_of};
ghost use Rattle.curve.specs.Form.{breaks_rise, with_widths, set_formed, others_formed, well_formed};
ghost use Rattle.lane_file.specs.File.{break_count, coefficient_count};
ghost use Rattle.lane_file.specs.Curves.{slices_of};
ghost use Rattle.lane_file.specs.Reading.{other_place, sets_formed, cells_at, curve_at, FileAt};

use crate::head::{FoundHead, break_count};
use curve::count::one_if;
use curve::form::{axes_formed, range_formed};
use encoding::float;

// Whether each of the first n breaks, of eight bytes each, is below the next. Those that are, are counted: a
// loop that stops at the first that is not takes longer.
fn rise(bytes: &[u8], n: usize) -> bool
    requires { 8 * (n + 1) ≤ length bytes.now }
    ensures { result ≡ breaks_rise (floats_of (n + 1) bytes.now) n }
{
    let mut below = 0;
    for i in 0..n {
        let here = 8 * i;
        let next = here + 8;
        let end = next + 8;
        below += one_if(float(&bytes[here..next]) < float(&bytes[next..end]));
    }
    below == n
}

// Whether n segments with these breaks are well formed; they have as many coefficients as they
// should, and the widths of their breaks.
fn set_formed(bytes: &[u8], n: usize) -> bool
    requires { 8 * break_count n ≤ length bytes.now }
    ensures { (m : ℕ) (l : List Float) → length l ≡ coefficient_count n m
        → result ≡ set_formed m n (floats_of (break_count n) bytes.now)
        (with_widths (floats_of (break_count n) bytes.now) l) }
{
    if n < 1 {
        return false;
    }
    if 20000 < n {
        return false;
    }
    let last = 8 * n;
    let end = last + 8;
    if float(&bytes[0..8]) == 0.0 {
        if float(&bytes[last..end]) == 1.0 {
            return rise(bytes, n);
        }
    }
    false
}

// The same of the n segments of the m other axes; of no axes there are none.
fn others_formed(bytes: &[u8], m: usize, n: usize) -> bool
    requires { 8 * break_count n ≤ length bytes.now }
    ensures { (l : List Float) → length l ≡ coefficient_count n m
        → result ≡ others_formed m n (floats_of (break_count n) bytes.now)
        (with_widths (floats_of (break_count n) bytes.now) l) }
{
    if m != 0 {
        return set_formed(bytes, n);
    }
    n == 0
}

// The place of the other set.
pub(crate) fn other_place(file: &[u8], head: FoundHead) -> usize
    requires { FileAt file.now head }
    ensures { (result ≡ other_place head) × (result ≤ length file.now) }
{
    head.next + 16 + 8 * (break_count(head.segments) + 6 * (head.segments * head.k))
}

// Whether both sets are well formed.
fn sets_formed(file: &[u8], head: FoundHead) -> bool
    requires { FileAt file.now head }
    ensures { result ≡ sets_formed file.now head }
{
    let n = head.segments;
    let others = head.other_segments;
    let set = head.next + 16;
    let set_end = set + 8 * break_count(n);
    if !set_formed(&file[set..set_end], n) {
        return false;
    }
    let other = other_place(file, head);
    let other_end = other + 8 * break_count(others);
    others_formed(&file[other..other_end], head.d - head.k, others)
}

// Whether the curve is well formed.
pub(crate) fn formed(file: &[u8], head: FoundHead) -> bool
    requires { FileAt file.now head }
    ensures { result ≡ well_formed (curve_at file.now head) (slices_of (cells_at file.now head)) }
{
    let d = head.d;
    let k = head.k;
    let axes = head.axes;
    let next = head.next;
    if d < 1 {
        return false;
    }
    if 16 < d {
        return false;
    }
    if k < 1 {
        return false;
    }
    if !axes_formed(&axes, k, d) {
        return false;
    }
    if !sets_formed(file, head) {
        return false;
    }
    let second = next + 8;
    let set = second + 8;
    range_formed(float(&file[next..second]), float(&file[second..set]))
}
