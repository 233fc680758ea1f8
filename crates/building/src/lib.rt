// The source's `SmoothedSpline::build`, over slices that the caller lends: a request checked, smoothed and
// written to the results.
#![tactic(auto)]

pub mod answers; // answers.rt: refusals, answers and document 01's numbers
pub mod compute; // compute.rt: what is computed once the checks let a request through
pub mod entry; // entry.rt: all of it

pub use answers::number;
pub use checks::{Axes, Limits, Request, Tolerance};
pub use entry::{Built, build};

// The report of an accepted request: the segments of the selected axes and of the other axes, the
// rounds made, the rows of all fits and the intervals of all audits.
#[derive(Clone, Copy)]
pub struct Report {
    pub segments: usize,
    pub interpolated_segments: usize,
    pub refinements: usize,
    pub fitting_rows: usize,
    pub checked_intervals: usize,
}

// The answer to a request. Each refusal has document 01's number, given in `specs/Outcome`; that of the
// refinements, 14, carries the worst ratio of error to tolerance.
#[derive(Clone, Copy)]
pub enum Answer {
    Accepted(Report),
    BadPoints,
    NoAxes,
    BadAxes,
    BadTolerance,
    BadParameters,
    BadRange,
    Overflow,
    InitialSegments,
    BadDiagonal,
    BadPivot,
    BadSolution,
    NotAbove,
    NotFinite,
    RefinementsUsedUp(f64),
    SegmentsUsedUp,
    BadMidpoint,
    ErrorAboveTolerance,
    AboveDomain,
    ShortSlice,
    PointCells,
    ToleranceTooFine,
}
