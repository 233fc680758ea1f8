// The parts of an input, one after the other: each is put behind the bytes that are left in front of a buffer.
ghost use Rattle.std.specs.Prelude.{List, ◌≡◌, ℕ, ◌-◌, ◌≤◌, ◌<◌, length, take};
ghost use Rattle.window.specs.Window.{window};
ghost use Rattle.heights.specs.Weights.{weight_table};
ghost use Rattle.lane_totals.specs.Kept.{Lent};
ghost use Rattle.season.specs.Run.{Running, Reached, Turned, Rested};

use crate::{Turn, run};
use lane_totals::sums::Sums;

// The bytes from a place up to the end are moved to the front.
fn move_front(bytes: &mut [u8], from: usize, end: usize)
    requires { (from ≤ end) × (end ≤ length bytes.old) }
    ensures { take (end - from) bytes.new ≡ window from end bytes.old }
{
    bytes.copy_within(from..end, 0);
}

// The files that stand whole in the first `end` bytes of the buffer are taken in, and what is left of these bytes
// is moved to the front. `last` says that no bytes follow. Of all bytes seen so far, in whatever parts they came,
// the totals are then those of the files before what is left; where the run has ended, they are those of all bytes.
pub fn take_part(
    buffer: &mut [u8],
    end: usize,
    last: bool,
    before: Sums,
    weights: &[u64],
    breaks: &mut [f64],
    coefficients: &mut [u64],
    other_breaks: &mut [f64],
    other_coefficients: &mut [u64],
) -> Turn
    requires end_in_bounds { (end ≤ length buffer.old) × Running before }
    requires lent { Lent 7500 (length breaks.old) (length coefficients.old) (length other_breaks.old)
        (length other_coefficients.old) × (weights.now ≡ weight_table) }
    ensures by_index { (seen : List ℕ) → Reached seen (take end buffer.old) before → Turned last seen buffer.new result }
    ensures rested { Rested last end before result }
{
    let taken = run::take_in(
        &buffer[0..end],
        last,
        before,
        weights,
        breaks,
        coefficients,
        other_breaks,
        other_coefficients,
    );
    let Some(taken) = taken else {
        return Turn::Ended(None);
    };
    if last {
        return Turn::Ended(Some(taken.sums));
    }
    move_front(buffer, taken.at, end);
    Turn::Goes {
        filled: end - taken.at,
        sums: taken.sums,
    }
}
