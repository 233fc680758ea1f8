// Piecewise polynomials, the source's `Polynomial`, and the source's `audit`, which bounds how far a
// curve lies from the line through the waypoints. A curve is its breaks, one more than it has segments,
// and six power coefficients for each segment and, within it, for each axis.
#![tactic(auto)]

mod span; // span.rt: the segment of a parameter
pub mod piece; // piece.rt: one axis on one piece
pub mod interval; // interval.rt: one waypoint interval
pub mod audit; // audit.rt: a range of intervals
