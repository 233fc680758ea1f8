// The certificate's entry point: document 01, "The certified figure". "Certifying: 18, 20, 1, 5, 6, 24,
// 3"; and before them 23, a depth above 6 (request 8).
ghost use Rattle.std.specs.Prelude.{◌≡◌, Float};
ghost use Rattle.curve.specs.Form.{slices};
ghost use Rattle.figure.specs.Certify.{Certified, certify_of, outcome};
ghost use Rattle.certificate.specs.Outcome.{outcome_of};
ghost use Rattle.figure.specs.Figure.{figure};

use crate::walk;
use curve::{Curve, form, place};
use request::parameters::Spacing;
use request::{parameters, points};

// Why a call is refused: 23, 18, 20, 1, 5, 6, 24, 3.
#[derive(Clone, Copy, Debug, PartialEq, Eq)]
pub enum Refusal {
    TooDeep,
    AboveDomain,
    PointCells,
    BadPoints,
    BadParameters,
    BadRange,
    Malformed,
    NotSelected,
}

impl Refusal {
    ghost use Rattle.certificate.specs.Outcome.{refusal_number};

    // Document 01's number of a refusal.
    pub fn number(self) -> u64
        ensures { result ≡ refusal_number self }
    {
        match self {
            Refusal::TooDeep => 23,
            Refusal::AboveDomain => 18,
            Refusal::PointCells => 20,
            Refusal::BadPoints => 1,
            Refusal::BadParameters => 5,
            Refusal::BadRange => 6,
            Refusal::Malformed => 24,
            Refusal::NotSelected => 3,
        }
    }
}

// The checks in their order, then the walk.
fn checked(
    curve: Curve,
    breaks: &[f64],
    coefficients: &[f64],
    other_breaks: &[f64],
    other_coefficients: &[f64],
    points: &[f64],
    n: usize,
    spacing: Spacing,
    parameters: &[f64],
    axis: usize,
    depth: usize,
) -> Result<Option<f64>, Refusal>
    ensures { outcome_of result ≡ certify_of curve (slices breaks.now coefficients.now other_breaks.now
        other_coefficients.now)
        points.now n spacing parameters.now axis depth }
{
    if 6 < depth {
        return Err(Refusal::TooDeep);
    }
    let d = curve.d;
    if 16 < d {
        return Err(Refusal::AboveDomain);
    }
    if 20000 < n {
        return Err(Refusal::AboveDomain);
    }
    if points.len() != d * n {
        return Err(Refusal::PointCells);
    }
    if points::unfit(d, n, points) {
        return Err(Refusal::BadPoints);
    }
    let Some(range) = parameters::placed(spacing, parameters, points, d, n) else {
        return Err(Refusal::BadParameters);
    };
    if parameters::unreliable(spacing, parameters, points, d, n, range) {
        return Err(Refusal::BadRange);
    }
    if !form::well_formed(
        curve,
        breaks,
        coefficients,
        other_breaks,
        other_coefficients,
    ) {
        return Err(Refusal::Malformed);
    }
    let k = curve.k;
    let axes = curve.axes;
    let place = place::position(&axes, k, axis);
    if k <= place {
        return Err(Refusal::NotSelected);
    }
    Ok(walk::walk(
        breaks,
        coefficients,
        k,
        place,
        points,
        d,
        axis,
        n,
        spacing,
        parameters,
        range,
        depth,
    ))
}

// The certified figure of the axis, one of the curve's selected axes, against n waypoints and their
// parameters, with a depth of 0 to 6. The curve stands in four slices beside it. The answer is
// `certify_of`'s; and where it is a figure, no point of the axis lies further from its line than that.
pub fn certify(
    curve: Curve,
    breaks: &[f64],
    coefficients: &[f64],
    other_breaks: &[f64],
    other_coefficients: &[f64],
    points: &[f64],
    n: usize,
    spacing: Spacing,
    parameters: &[f64],
    axis: usize,
    depth: usize,
) -> Result<Option<f64>, Refusal>
    ensures result_value { outcome_of result ≡ certify_of curve (slices breaks.now coefficients.now other_breaks.now
        other_coefficients.now)
        points.now n spacing parameters.now axis depth }
    ensures certified { (F : Float) → outcome_of result ≡ outcome 0 (figure F) → Certified curve (slices breaks.now
        coefficients.now other_breaks.now other_coefficients.now)
        points.now n spacing parameters.now axis F }
{
    checked(
        curve,
        breaks,
        coefficients,
        other_breaks,
        other_coefficients,
        points,
        n,
        spacing,
        parameters,
        axis,
        depth,
    )
}
