// The library for C and Rust: `include/pamitoye.h` declares these functions. A request or a curve comes
// as numbers and slices; the answer goes back as its number in document 01, 0 where nothing is refused.
// Each function calls that of a crate below and has its contract.
#![tactic(auto)]

mod choices; // choices.rt: what a request or a curve chooses
mod rooms; // rooms.rt: the lengths of the slices to lend
mod builds; // builds.rt: a whole request
mod curves; // curves.rt: a curve, and whether it is well formed
mod queries; // queries.rt: one query, and many in one call
mod certificates; // certificates.rt: the certified figure
mod orders; // orders.rt: which lane is cut first
mod returns; // returns.rt: the lane driven back
mod axis_heights; // axis_heights.rt: the heights of an axis
mod lane_files; // lane_files.rt: a curve as a lane file, and from one
