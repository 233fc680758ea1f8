// Cases of the list that `replay` answers: crates `window` and `float`.
#![tactic(auto)]

pub mod cases;
pub mod leaves;
