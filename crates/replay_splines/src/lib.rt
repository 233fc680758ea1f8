// Cases of the list that `replay` answers: crates `bspline`, `sorting` and `seed`.
#![tactic(auto)]

pub mod knots;
pub mod splines;
