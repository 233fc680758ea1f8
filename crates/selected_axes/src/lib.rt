// The selected axes of the source's `build`, over one lent slice: from the linear test to the final
// audit.
#![tactic(auto)]

mod linear; // linear.rt: the linear test
mod chord; // chord.rt: the first spline
pub mod start; // start.rt: up to the loop
mod physical; // physical.rt: controls and errors in physical units
pub mod finish; // finish.rt: the final audit
pub mod course; // course.rt: all of it
