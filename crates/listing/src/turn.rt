// From one case of a list to the next.
ghost use Rattle.std.specs.Prelude.{◌≡◌, ◌↔◌, length, IsNone, OnSome, IfSome};
ghost use Rattle.listing.specs.Cases.{after_case};
ghost use Rattle.listing.specs.Lines.{closed_by, closed_unless};

use crate::list;
use crate::list::{Head, Stop};
use crate::output::Output;

// There is no case at the byte `place`: the list has ended, or does not read.
pub fn stopped(out: &mut Output, place: u64, stop: Stop)
    ensures { out.new ≡ closed_by stop out.old place }
{
    match stop {
        Stop::End => out.flush(),
        Stop::Damaged => out.damaged(place),
    }
}

// The byte after the case at the byte `place`, which has its line; None where it could not be answered.
pub fn answered(out: &mut Output, line: Option<()>, place: u64, head: Head) -> Option<u64>
    ensures more { IsNone result ↔ IsNone line }
    ensures next { IfSome result (λ next. next ≡ after_case place head.count head.cells) }
    ensures out_after { out.new ≡ closed_unless line out.old place }
{
    if line.is_none() {
        stopped(out, place, Stop::Damaged);
        return None;
    }
    Some(list::after(place, head.count, head.cells))
}

// Reads and answers cases until the list ends, at most a million of them. `answer` writes the line of a case; None where the case
// does not fit its kind. No clause can name what standard input holds, of which the lent slices keep what was read last, nor what standard
// output gets: the text of a case is promised by what `answer` calls, and what ends the list by `answered` and `stopped`.
pub fn run<F: FnMut(Head, &[f64], &mut Output) -> Option<()>>(
    bytes: &mut [u8],
    cells: &mut [f64],
    mut answer: F,
)
    requires { F.IsAlwaysCallable answer }
    ensures bytes_len { length bytes.new ≡ length bytes.old }
    ensures cells_len { length cells.new ≡ length cells.old }
{
    let mut out = Output::new();
    if !list::opens(bytes) {
        out.damaged(0);
        return;
    }
    let mut place = 8;
    for _ in 0..1_000_000 {
        let head = match list::next_case(bytes, cells) {
            Ok(head) => head,
            Err(stop) => {
                stopped(&mut out, place, stop);
                return;
            }
        };
        let line = answer(head, &cells[..head.cells], &mut out);
        let Some(next) = answered(&mut out, line, place, head) else {
            return;
        };
        place = next;
    }
    out.damaged(place);
}
