// Season totals over the bytes of an input, in whatever parts they come: document 02, request 13. A run begins
// with `lane_totals::sums::none`, takes one part after the other with `take_part`, and ends with `answer`.
#![tactic(auto)]

mod files; // files.rt: the next file in the bytes that were read
mod run; // run.rt: the files in the bytes, one after the other
mod parts; // parts.rt: the parts of an input, one after the other
mod lines; // lines.rt: the lines of a run

use lane_totals::sums::Sums;
pub use lines::answer;
pub use parts::take_part;

// What a turn comes to.
#[derive(Clone, Copy)]
pub enum Turn {
    // the input has ended: its totals; or the run stopped: none
    Ended(Option<Sums>),
    // how many bytes are left in front of the buffer, and the totals so far
    Goes { filled: usize, sums: Sums },
}
