// The files in the bytes that were read so far, one after the other.
ghost use Rattle.std.specs.Prelude.{IfSome, ◌≡◌, ◌≤◌, ◌<◌, length};
ghost use Rattle.heights.specs.Weights.{weight_table};
ghost use Rattle.lane_totals.specs.Kept.{Lent};
ghost use Rattle.season.specs.Run.{Running, TakenIn, Waits, Rests};

use crate::files;
use crate::files::Next;
use lane_totals::sums;
use lane_totals::sums::Sums;

// The totals, and the place after the last file that was taken in.
#[derive(Clone, Copy)]
pub(crate) struct Taken {
    pub(crate) at: usize,
    pub(crate) sums: Sums,
}

// One file more is taken in, if it stands whole from the place on; none, where the run stops.
fn take_one(
    bytes: &[u8],
    at: usize,
    last: bool,
    before: Sums,
    weights: &[u64],
    breaks: &mut [f64],
    coefficients: &mut [u64],
    other_breaks: &mut [f64],
    other_coefficients: &mut [u64],
) -> Option<Taken>
    requires at_in_bounds { (at < length bytes.now) × Running before }
    requires lent { Lent 7500 (length breaks.old) (length coefficients.old) (length other_breaks.old)
        (length other_coefficients.old) × (weights.now ≡ weight_table) }
    ensures taken_in { TakenIn bytes.now at last before result }
    ensures at_le_at { IfSome result (λ r. (at ≤ r.at) × (r.at ≡ at → Waits bytes.now at last)) }
{
    if 65535 <= before.lanes + before.turned_away {
        return None;
    }
    match files::next_file(bytes, at, last) {
        Next::Bad => None,
        Next::More => Some(Taken { at, sums: before }),
        Next::File { from, to } => {
            let one = lane_totals::in_file(
                &bytes[from..to],
                weights,
                breaks,
                coefficients,
                other_breaks,
                other_coefficients,
            );
            let sums = sums::merged(before, one);
            Some(Taken { at: to, sums })
        }
    }
}

// All files are taken in that stand whole in the bytes. `last` says that no bytes follow. None, where the run
// stops.
pub(crate) fn take_in(
    bytes: &[u8],
    last: bool,
    before: Sums,
    weights: &[u64],
    breaks: &mut [f64],
    coefficients: &mut [u64],
    other_breaks: &mut [f64],
    other_coefficients: &mut [u64],
) -> Option<Taken>
    requires running { Running before }
    requires lent { Lent 7500 (length breaks.old) (length coefficients.old) (length other_breaks.old)
        (length other_coefficients.old) × (weights.now ≡ weight_table) }
    ensures taken_in { TakenIn bytes.now 0 last before result }
    ensures rests { IfSome result (λ r. Rests bytes.now r.at last) }
{
    let mut taken = Taken {
        at: 0,
        sums: before,
    };
    // From file to file: each says where the next begins.
    while taken.at < bytes.len() {
        let next = take_one(
            bytes,
            taken.at,
            last,
            taken.sums,
            weights,
            breaks,
            coefficients,
            other_breaks,
            other_coefficients,
        )?;
        if next.at == taken.at {
            return Some(next);
        }
        taken = next;
    }
    Some(taken)
}
