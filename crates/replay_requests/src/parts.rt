// The parts of the buffers that a case lends. A part has document 01's room, or as much more or less as
// the case says; eight cells lie before and after it. Before the call these and every cell of the part
// hold `MARK`.
ghost use Rattle.std.specs.Prelude.{◌≡◌, true, ◌+◌, ◌≤◌, leb};
ghost use Rattle.replay_requests.specs.Lending.{Room01, Ends, Within};

use listing::{axes, sizes};

pub const MARK: f64 = -6.0221407623e-123;

// One for each slice that `build` is lent: its room, where its part of a buffer ends, or the buffer.
#[derive(Clone, Copy)]
pub struct Lent<T> {
    pub work: T,
    pub breaks: T,
    pub coefficients: T,
    pub other_breaks: T,
    pub other_coefficients: T,
    pub errors: T,
}

// e times (16d + 32)
fn work_room(d: usize, e: usize) -> usize
    requires { (d ≤ 16) × (e ≤ 20016) }
    ensures { result ≤ 5764608 }
{
    e * (16 * d + 32)
}

// How many cells document 01 asks of each slice. A request above the domain is refused whatever the room:
// it gets that of no axes, no waypoints and no segments.
fn room_of(d: usize, n: usize, segments: usize) -> Lent<usize>
    ensures { Room01 result }
{
    if 16 < d || 20000 < n || 20000 < segments {
        return Lent {
            work: 512,
            breaks: 1,
            coefficients: 0,
            other_breaks: 0,
            other_coefficients: 0,
            errors: 0,
        };
    }
    Lent {
        work: work_room(d, n.max(segments) + 16),
        breaks: segments + 1,
        coefficients: sizes::rows(d, segments),
        other_breaks: n,
        other_coefficients: sizes::rows(d, n),
        errors: d,
    }
}

// The end of a part of n cells, and as many more as the signed byte j of `word` says.
fn part_end(n: usize, word: u64, j: usize) -> usize
    requires { n ≤ 6000000 }
    ensures { (8 ≤ result) × (result ≤ 6000135) }
{
    let more = axes::byte_of(word, j);
    if more < 128 {
        return n + more + 8;
    }
    n.saturating_sub(256 - more) + 8
}

// Where the part of each buffer ends, for that room and as many cells more or less as the signed bytes of
// two whole numbers say; it begins at 8.
fn parts_of(room: Lent<usize>, low: u64, high: u64) -> Lent<usize>
    requires { Room01 room }
    ensures { Ends result }
{
    Lent {
        work: part_end(room.work, low, 0),
        breaks: part_end(room.breaks, low, 1),
        coefficients: part_end(room.coefficients, low, 2),
        other_breaks: part_end(room.other_breaks, low, 3),
        other_coefficients: part_end(room.other_coefficients, high, 0),
        errors: part_end(room.errors, high, 1),
    }
}

// The parts that a case asks for.
pub fn parts_asked(wholes: &[u64; 16], d: usize, n: usize, segments: usize) -> Lent<usize>
    ensures { Ends result }
{
    parts_of(room_of(d, n, segments), wholes[13], wholes[14])
}

// Whether a buffer of that length has the part that ends at `end`, with the cells around it.
pub(crate) fn holds(end: usize, length: usize) -> bool
    ensures { result ≡ leb (end + 8) length }
{
    8 <= length && end <= length - 8
}

// Whether buffers of these lengths have the parts.
pub fn fit(p: Lent<usize>, lengths: Lent<usize>) -> bool
    ensures { result ≡ true → Within p lengths }
{
    holds(p.work, lengths.work)
        && holds(p.breaks, lengths.breaks)
        && holds(p.coefficients, lengths.coefficients)
        && holds(p.other_breaks, lengths.other_breaks)
        && holds(p.other_coefficients, lengths.other_coefficients)
        && holds(p.errors, lengths.errors)
}
