// Queries of a curve: the source's `SmoothedSpline::evaluate`, with the range handling that document 01
// adds.
#![tactic(auto)]

mod lent; // lent.rt: a curve with its slices
mod search; // search.rt: the segment of a parameter
mod segment; // segment.rt: one axis on one segment
mod places; // places.rt: where each axis stands in its set
mod range; // range.rt: parameters outside start to end
mod row; // row.rt: the axes of one query, written
mod entry; // entry.rt: one query, and many in one call

pub use entry::{
    Refusal, Spans, evaluate, evaluate_all, evaluate_all_formed, evaluate_formed, evaluate_near,
    number,
};
pub use lent::Lent;
