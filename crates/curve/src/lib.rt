// A curve, and when it is well formed. A curve is a struct by value; beside it stand four slices, which
// are only read: the breaks and the coefficients of the selected axes, and those of the other axes.
// Coefficients lie segment after segment, within it axis after axis, six each, from power 0 up; behind
// them lie the widths of the segments.
#![tactic(auto)]

pub mod count; // count.rt: counts without a branch
pub mod form; // form.rt: whether a curve is well formed, and one that is not
pub mod place; // place.rt: where an axis stands in a list of axes, and among all
pub mod widths; // widths.rt: the widths of segments

// What a parameter outside start to end gets: a refusal, or the value at the nearer end, standing still.
#[derive(Clone, Copy, Debug, PartialEq, Eq)]
pub enum Mode {
    Error,
    Clamp,
}

// d axes, of which the k in `axes` are selected (its further cells mean nothing); the parameter goes
// from `start` to `end`; the selected axes have `segments` segments, the other axes, in rising order,
// `other_segments`.
#[derive(Clone, Copy)]
pub struct Curve {
    pub d: usize,
    pub k: usize,
    pub axes: [usize; 16],
    pub start: f64,
    pub end: f64,
    pub mode: Mode,
    pub segments: usize,
    pub other_segments: usize,
}
