// What is put into the work slice of a request and taken from it: what the selected axes start from, the other axes in
// a part of their own, and the results.
#![tactic(auto)]

mod selected; // selected.rt: the parameters and the rows of the selected axes; 6 and 7
mod others; // others.rt: the other axes
mod results; // results.rt: from the work slice to the result slices

pub use others::interpolate_others;
pub use results::{put_errors, put_other, put_selected};
pub use selected::prepare;
