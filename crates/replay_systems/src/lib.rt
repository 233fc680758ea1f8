// Cases of the list that `replay` answers: crates `normal` and `fit`.
#![tactic(auto)]

pub mod fits;
pub mod systems;
