// The checks of `build` and what a request chooses: 18, 20 and 19, 1 to 7 and 26, the axes and the tolerances.
#![tactic(auto)]

ghost use Rattle.std.specs.Prelude.{◌≡◌};
ghost use Rattle.checks.specs.Checks.{refusal_number};

pub mod choices; // choices.rt: the axes and the tolerances that a request chooses
pub mod refusals; // refusals.rt: what turns a request away

use request::parameters::Spacing;

// Which axes are smoothed: all, or those of a list.
#[derive(Clone, Copy)]
pub enum Axes<'a> {
    All,
    Listed(&'a [usize]),
}

// The tolerance: one for all smoothed axes, or one for each, in a list.
#[derive(Clone, Copy)]
pub enum Tolerance<'a> {
    Uniform(f64),
    PerAxis(&'a [f64]),
}

// How many rounds and how many segments a request may take.
#[derive(Clone, Copy)]
pub struct Limits {
    pub refinements: usize,
    pub segments: usize,
}

// A request in document 01's terms: d rows and n waypoints of points, which axes are smoothed and with which
// tolerance, where the parameters come from (those listed stand in `parameters`), and the limits.
#[derive(Clone, Copy)]
pub struct Request<'a> {
    pub points: &'a [f64],
    pub d: usize,
    pub n: usize,
    pub axes: Axes<'a>,
    pub tolerance: Tolerance<'a>,
    pub spacing: Spacing,
    pub parameters: &'a [f64],
    pub limits: Limits,
}

// The lengths of the slices that are lent for an answer.
#[derive(Clone, Copy)]
pub struct Room {
    pub work: usize,
    pub breaks: usize,
    pub coefficients: usize,
    pub other_breaks: usize,
    pub other_coefficients: usize,
    pub errors: usize,
}

// Why a check turns a request away. Each refusal has document 01's number, or document 02's, given in `specs/Checks`.
#[derive(Clone, Copy, Debug, PartialEq, Eq)]
pub enum Refusal {
    BadPoints,
    NoAxes,
    BadAxes,
    BadTolerance,
    BadParameters,
    BadRange,
    Overflow,
    AboveDomain,
    ShortSlice,
    PointCells,
    ToleranceTooFine,
}

impl Refusal {
    // Its number.
    pub fn number(self) -> usize
        ensures { result ≡ refusal_number self }
    {
        match self {
            Refusal::BadPoints => 1,
            Refusal::NoAxes => 2,
            Refusal::BadAxes => 3,
            Refusal::BadTolerance => 4,
            Refusal::BadParameters => 5,
            Refusal::BadRange => 6,
            Refusal::Overflow => 7,
            Refusal::AboveDomain => 18,
            Refusal::ShortSlice => 19,
            Refusal::PointCells => 20,
            Refusal::ToleranceTooFine => 26,
        }
    }
}
