// The certified figure: how far an axis of a curve can lie from the lines between its waypoints.
#![tactic(auto)]

pub mod intersection; // intersection.rt: the six Bernstein pairs of one intersection
mod quick; // quick.rt: the figure of an intersection at depth 0, in spreads
mod halving; // halving.rt: the figure of an intersection, with a depth
mod walk; // walk.rt: the intersections of an axis, one after the other
pub mod certify; // certify.rt: the entry point, with its checks
