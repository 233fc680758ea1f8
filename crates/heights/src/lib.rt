// Heights for the blade valve: document 02, request 9.
#![tactic(auto)]

mod weights; // weights.rt: the table of weights
mod rounding; // rounding.rt: a float to the nearest whole number
mod controls; // controls.rt: the whole controls of a segment
mod steps; // steps.rt: the heights of a segment, step after step
mod entry; // entry.rt: the heights of an axis in a lent slice

pub use entry::{Refusal, heights, number};
// a segment at a time, for the totals of request 13
pub use controls::of_segment;
pub use steps::height;
pub use weights::weight_table;
