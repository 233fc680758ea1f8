// Interval arithmetic in f64: pairs of ends, for the certified figure.
#![tactic(auto)]

mod neighbours; // neighbours.rt: the next number down and up
mod directed; // directed.rt: sums rounded downward and upward
pub mod ends; // ends.rt: pairs of ends, for all numbers
mod upward; // upward.rt: the next number up and sums rounded upward, for numbers of a known size
pub mod spread; // spread.rt: pairs of ends, both rounded upward, for numbers of a known size
