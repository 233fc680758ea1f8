// The rounds of the source's `build` (its `loop`), over one lent slice: where the arrays lie there, and each step that
// changes them.
#![tactic(auto)]

pub mod plan; // plan.rt: where the arrays lie
pub mod refit; // refit.rt: a window of controls fitted anew
mod regions; // regions.rt: the regions of a round
pub mod insertions; // insertions.rt: the knots of a round
mod round; // round.rt: one round
mod locations; // locations.rt: where a round puts its knots
pub mod refine; // refine.rt: rounds until the worst bound is small enough
