// Cases of the list that `replay` answers: crates `polynomial`, `curve` and `certificate`.
#![tactic(auto)]

pub mod audits;
pub mod certificates;
pub mod queries;
