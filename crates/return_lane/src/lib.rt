// The return lane: a curve driven back (document 02, request 12).
#![tactic(auto)]

ghost use Rattle.std.specs.Prelude.{◌≡◌, true};
ghost use Rattle.curve.specs.Form.{slices, well_formed};
ghost use Rattle.return_lane.specs.Return.{outcome, return_of, used_by, number_of};

use crate::breaks::rise_back;
use crate::set::put_set;
use curve::{Curve, form};

mod breaks; // breaks.rt: the breaks in reverse
mod segments; // segments.rt: the coefficients of segments in reverse
mod set; // set.rt: one set

// Why there is no return lane. A refusal has written nothing.
#[derive(Clone, Copy, Debug, PartialEq, Eq)]
pub enum Refusal {
    // 24: the curve is not well formed
    Malformed,
    // 19: a lent slice is too short
    TooShort,
    // 29: the breaks of the return lane do not rise strictly
    NotRising,
}

// Document 02's number of an answer, 0 where nothing is refused.
pub fn number(answer: Result<(), Refusal>) -> u64
    ensures { result ≡ number_of answer }
{
    match answer {
        Ok(()) => 0,
        Err(Refusal::Malformed) => 24,
        Err(Refusal::TooShort) => 19,
        Err(Refusal::NotRising) => 29,
    }
}

// The return lane of a curve, to the first cells of four lent slices: as many as the curve's own slices
// have, and no others. The curve beside them is the same. On an answer they are well formed with it.
pub fn return_lane(
    curve: Curve,
    breaks: &[f64],
    coefficients: &[f64],
    other_breaks: &[f64],
    other_coefficients: &[f64],
    lent_breaks: &mut [f64],
    lent_coefficients: &mut [f64],
    lent_other_breaks: &mut [f64],
    lent_other_coefficients: &mut [f64],
) -> Result<(), Refusal>
    ensures lent_other_coefficients_after { outcome (number_of result) (slices lent_breaks.new lent_coefficients.new
        lent_other_breaks.new lent_other_coefficients.new)
        ≡ return_of curve (slices breaks.now coefficients.now other_breaks.now
        other_coefficients.now) (slices lent_breaks.old lent_coefficients.old
        lent_other_breaks.old lent_other_coefficients.old) }
    ensures lent_other_coefficients_after_2 { number_of result ≡ 0 → well_formed curve (used_by (slices breaks.now coefficients.now
        other_breaks.now other_coefficients.now) (slices lent_breaks.new
        lent_coefficients.new lent_other_breaks.new lent_other_coefficients.new)) ≡ true }
{
    if !form::well_formed(
        curve,
        breaks,
        coefficients,
        other_breaks,
        other_coefficients,
    ) {
        return Err(Refusal::Malformed);
    }
    if lent_breaks.len() < breaks.len()
        || lent_coefficients.len() < coefficients.len()
        || lent_other_breaks.len() < other_breaks.len()
        || lent_other_coefficients.len() < other_coefficients.len()
    {
        return Err(Refusal::TooShort);
    }
    if !rise_back(breaks) || !rise_back(other_breaks) {
        return Err(Refusal::NotRising);
    }
    let d = curve.d;
    let k = curve.k;
    let n = curve.segments;
    let others = curve.other_segments;
    let m = d - k;
    put_set(k, n, breaks, coefficients, lent_breaks, lent_coefficients);
    put_set(
        m,
        others,
        other_breaks,
        other_coefficients,
        lent_other_breaks,
        lent_other_coefficients,
    );
    Ok(())
}
