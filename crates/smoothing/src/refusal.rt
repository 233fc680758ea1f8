// What the stages of `build` refuse once its input passed.
ghost use Rattle.std.specs.Prelude.{◌≡◌};
ghost use Rattle.smoothing.specs.Refusal.{refusal_number};
ghost use Rattle.smoothing.specs.declared.refusal.Refusal.{Refusal};

use normal::Unsolved;
use polynomial::interval::Unaudited;

#[derive(Clone, Copy, Debug)]
pub enum Refusal {
    // The first knots would give more segments than are allowed (8).
    InitialSegments,
    // A system without a solution (9, 10, 11).
    Unsolved(Unsolved),
    // An audit that ended early (12, 13).
    Unaudited(Unaudited),
    // All refinements are used up (14), with the worst ratio of error to tolerance.
    RefinementsUsedUp(f64),
    // A round would give more segments than are allowed (15).
    SegmentsUsedUp,
    // A knot does not lie strictly inside its span (16).
    BadMidpoint,
    // An error is above its tolerance in the end (17).
    ErrorAboveTolerance,
}

impl Refusal {
    // Document 01's number.
    pub fn number(self) -> usize
        ensures { result ≡ refusal_number self }
    {
        match self {
            Refusal::InitialSegments => 8,
            Refusal::Unsolved(e) => e.number(),
            Refusal::Unaudited(e) => e.number(),
            Refusal::RefinementsUsedUp(_) => 14,
            Refusal::SegmentsUsedUp => 15,
            Refusal::BadMidpoint => 16,
            Refusal::ErrorAboveTolerance => 17,
        }
    }
}

impl From<Unsolved> for Refusal {
    ghost from_gives = { λ e r. r ≡ Refusal.Unsolved e };

    fn from(e: Unsolved) -> Refusal {
        Refusal::Unsolved(e)
    }
}

impl From<Unaudited> for Refusal {
    ghost from_gives = { λ e r. r ≡ Refusal.Unaudited e };

    fn from(e: Unaudited) -> Refusal {
        Refusal::Unaudited(e)
    }
}
