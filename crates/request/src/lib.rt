// What `build` and the certificate both ask of a request's points and parameters.
#![tactic(auto)]

pub mod parameters; // parameters.rt: the parameters, listed or spaced, their tests, and their length
pub mod points; // points.rt: the test of the points
