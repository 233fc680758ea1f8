// What a lane file adds to a season's totals: document 02, request 13.
#![tactic(auto)]

pub mod sums; // sums.rt: totals, as they are kept
mod segments; // segments.rt: the heights of a segment, and of all segments of an axis
mod file; // file.rt: what a file adds

pub use file::in_file;
