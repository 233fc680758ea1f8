// Cases of the list that `replay` answers: queries with modes, orders, lent lengths and refusals. A library, so that it is
// proved beside other crates.
#![tactic(auto)]

pub mod asked; // asked.rt: the slices of a case
pub mod calls; // calls.rt: the calls, and what is printed of each
pub mod queries; // queries.rt: kinds 81 to 83
mod turns; // turns.rt: queries in turn, kind 83
