// The first knots of a fit, and the controls that later knots affect: the source's `seed` and
// `regions`.
#![tactic(auto)]

mod corridor; // corridor.rt: the anchors that a corridor of slopes finds
mod knots; // knots.rt: the knots around them
mod regions; // regions.rt: the windows of controls that new knots affect

pub use knots::seed;
pub use regions::{Region, next_region};

// Where the waypoints lie in a lent slice: `samples` parameters from `parameters` on, as many points of
// `axes` cells from `points` on; and where the knots go, behind them.
#[derive(Clone, Copy)]
pub struct Waypoints {
    pub parameters: usize,
    pub points: usize,
    pub samples: usize,
    pub axes: usize,
    pub knots: usize,
}
