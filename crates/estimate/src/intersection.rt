// One intersection of a waypoint interval with a segment: document 01, "The certified figure".

// The numbers that an intersection is computed from.
#[derive(Clone, Copy)]
pub struct Intersection {
    // the segment [a, b] and its coefficients
    pub start: f64,
    pub end: f64,
    pub coefficients: [f64; 6],
    // [left, right]
    pub left: f64,
    pub right: f64,
    // the waypoint interval: its parameters and its waypoints
    pub from: f64,
    pub to: f64,
    pub first: f64,
    pub second: f64,
}
