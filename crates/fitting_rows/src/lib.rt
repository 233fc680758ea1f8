// The rows of a fit: what each sample or node asks of the controls, read from the arrays that lie in
// one slice. Samples are the waypoints, at rising parameters; the spline is `bspline`'s and a row
// `normal`'s.
#![tactic(auto)]

pub mod samples; // samples.rt: the rows of dense spans, one for each sample
pub mod pieces; // pieces.rt: the rows of sparse spans, six for each piece between samples
pub mod penalty; // penalty.rt: the rows of the third derivative, three for each span

// Where the arrays of a fit lie in a lent slice: the spline's knots, `count` + 6 of them, and its
// controls, `count` of them with `axes` cells each; the samples' parameters, `samples` of them, and
// their points, `axes` cells each. The system of a window begins at `system`, after all of them.
#[derive(Clone, Copy)]
pub struct Place {
    pub knots: usize,
    pub controls: usize,
    pub count: usize,
    pub axes: usize,
    pub parameters: usize,
    pub points: usize,
    pub samples: usize,
    pub system: usize,
}
