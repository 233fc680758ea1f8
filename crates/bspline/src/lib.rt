// Quintic B-splines, the source's `BSpline`: t are the knots, c the controls, m of them with d axes each,
// control after control.
#![tactic(auto)]

pub mod search; // search.rt: the partition point of a list, and the span of a parameter
pub mod basis; // basis.rt: the basis functions of a span, their values and their powers
pub mod insertion; // insertion.rt: one more knot
pub mod segments; // segments.rt: the polynomial of every span
pub mod choose; // choose.rt: binomial coefficients

// Where a spline lies in a lent slice: its knots, `count` + 6 of them, start at `knots`, and its
// controls, `count` of them with `axes` cells each, at `controls`.
#[derive(Clone, Copy)]
pub struct Spline {
    pub knots: usize,
    pub controls: usize,
    pub count: usize,
    pub axes: usize,
}
