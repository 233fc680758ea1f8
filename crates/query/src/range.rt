// Parameters outside start to end, in one place.
ghost use Rattle.std.specs.Prelude.{◌≡◌, true, IsSome, Some};
ghost use Rattle.query.specs.Range.{beyond_of, within, ranged_of, answered_at, Inside};

use curve::count::one_if;
use curve::{Curve, Mode};

// Where the curve answers a query, and whether the query's own parameter lies outside start to end, where
// all derivatives are +0.
#[derive(Clone, Copy)]
pub struct Ranged {
    pub at: f64,
    pub outside: bool,
}

// Beyond an end.
fn beyond(mode: Mode, end: f64) -> Option<Ranged>
    ensures { result ≡ beyond_of mode end }
{
    match mode {
        Mode::Error => None,
        Mode::Clamp => Some(Ranged {
            at: end,
            outside: true,
        }),
    }
}

// The query at x, if it is not refused.
#[tactic(auto, unfolding(crate::specs::Range::ranged_of))]
pub fn in_range(curve: Curve, x: f64) -> Option<Ranged>
    ensures { result ≡ ranged_of curve x }
{
    let mode = curve.mode;
    let start = curve.start;
    let end = curve.end;
    if x < start {
        return beyond(mode, start);
    }
    if end < x {
        return beyond(mode, end);
    }
    if x.is_nan() {
        return None;
    }
    Some(Ranged {
        at: x,
        outside: false,
    })
}

// Whether no parameter is outside start to end: those that are not, are counted, without a branch. Then
// none is a NaN.
pub fn all_inside(curve: Curve, xs: &[f64]) -> bool
    ensures { result ≡ true → Inside curve xs.now }
{
    let start = curve.start;
    let end = curve.end;
    let mut inside = 0;
    for i in 0..xs.len() {
        inside += one_if(start <= xs[i]) * one_if(xs[i] <= end);
    }
    inside == xs.len()
}

// The query at x, which is not refused. The curve answers it at x itself where that is known to be inside.
pub fn answered(curve: Curve, x: f64, inside: bool) -> Ranged
    requires some { IsSome (ranged_of curve x) }
    requires inside { inside ≡ true → ranged_of curve x ≡ Some (within x) }
    ensures { result ≡ answered_at curve x }
{
    if inside {
        return Ranged {
            at: x,
            outside: false,
        };
    }
    in_range(curve, x).unwrap()
}
