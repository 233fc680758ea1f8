// Whether the figure of an intersection is above the largest so far, told from an estimate: the same formula in
// plain floats, and a bound for what all roundings cost, its own and those of the pairs of ends.
#![tactic(auto)]

pub mod intersection; // intersection.rt: the numbers that an intersection is computed from
pub mod sizes; // sizes.rt: sizes of numbers, and how the parameters lie
mod plain; // plain.rt: the formula in plain floats
pub mod comparison; // comparison.rt: the figure against the largest so far
