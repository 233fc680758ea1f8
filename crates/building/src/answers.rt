// Refusals and answers, and the numbers of documents 01 and 02.
ghost use Rattle.std.specs.Prelude.{◌≡◌};
ghost use Rattle.smoothing.specs.Answer.{number_of};
ghost use Rattle.smoothing.specs.declared.refusal.Refusal.TheVariants.{Unsolved as NoSolution};
ghost use Rattle.building.specs.declared.answers.Refusal.{Refusal};
ghost use Rattle.normal.specs.Solve as solving;
ghost use Rattle.polynomial.specs.Outcome as audits;
ghost use Rattle.smoothing.specs.Answer.Answer.{refused};
ghost use Rattle.smoothing.specs.Refusal as stages;
ghost use Rattle.checks.specs.Checks.{refusal_number};
ghost use Rattle.building.specs.Outcome.{outcome_of, refused_by};

use crate::Answer;
use normal::Unsolved;
use polynomial::interval::Unaudited;

// Why a request is refused: a check turned it away, or a stage did.
#[derive(Clone, Copy, Debug)]
pub enum Refusal {
    // 1 to 7, 18, 19, 20 and 26.
    Input(checks::Refusal),
    // 8 to 17; 14 carries the worst ratio of error to tolerance.
    Stage(smoothing::Refusal),
}

impl From<checks::Refusal> for Refusal {
    ghost from_gives = { λ e r. r ≡ Refusal.Input e };

    fn from(e: checks::Refusal) -> Refusal {
        Refusal::Input(e)
    }
}

impl From<smoothing::Refusal> for Refusal {
    ghost from_gives = { λ e r. r ≡ Refusal.Stage e };

    fn from(e: smoothing::Refusal) -> Refusal {
        Refusal::Stage(e)
    }
}

impl From<Unsolved> for Refusal {
    ghost from_gives = { λ e r. r ≡ Refusal.Stage (NoSolution e) };

    fn from(e: Unsolved) -> Refusal {
        Refusal::Stage(smoothing::Refusal::Unsolved(e))
    }
}

// The number of an answer, 0 where it is accepted.
pub fn number(answer: Answer) -> u64
    ensures { result ≡ number_of (outcome_of answer) }
{
    match answer {
        Answer::Accepted(_) => 0,
        Answer::BadPoints => 1,
        Answer::NoAxes => 2,
        Answer::BadAxes => 3,
        Answer::BadTolerance => 4,
        Answer::BadParameters => 5,
        Answer::BadRange => 6,
        Answer::Overflow => 7,
        Answer::InitialSegments => 8,
        Answer::BadDiagonal => 9,
        Answer::BadPivot => 10,
        Answer::BadSolution => 11,
        Answer::NotAbove => 12,
        Answer::NotFinite => 13,
        Answer::RefinementsUsedUp(_) => 14,
        Answer::SegmentsUsedUp => 15,
        Answer::BadMidpoint => 16,
        Answer::ErrorAboveTolerance => 17,
        Answer::AboveDomain => 18,
        Answer::ShortSlice => 19,
        Answer::PointCells => 20,
        Answer::ToleranceTooFine => 26,
    }
}

// The answer that a check turned the request away.
fn turned_away(e: checks::Refusal) -> Answer
    ensures { outcome_of result ≡ refused (refusal_number e) }
{
    match e {
        checks::Refusal::BadPoints => Answer::BadPoints,
        checks::Refusal::NoAxes => Answer::NoAxes,
        checks::Refusal::BadAxes => Answer::BadAxes,
        checks::Refusal::BadTolerance => Answer::BadTolerance,
        checks::Refusal::BadParameters => Answer::BadParameters,
        checks::Refusal::BadRange => Answer::BadRange,
        checks::Refusal::Overflow => Answer::Overflow,
        checks::Refusal::AboveDomain => Answer::AboveDomain,
        checks::Refusal::ShortSlice => Answer::ShortSlice,
        checks::Refusal::PointCells => Answer::PointCells,
        checks::Refusal::ToleranceTooFine => Answer::ToleranceTooFine,
    }
}

// That a system had no solution.
fn unsolved(e: Unsolved) -> Answer
    ensures { outcome_of result ≡ refused (solving.refusal_number e) }
{
    match e {
        Unsolved::BadDiagonal => Answer::BadDiagonal,
        Unsolved::BadPivot => Answer::BadPivot,
        Unsolved::BadSolution => Answer::BadSolution,
    }
}

// That an audit ended early.
fn unaudited(e: Unaudited) -> Answer
    ensures { outcome_of result ≡ refused (audits.refusal_number e) }
{
    match e {
        Unaudited::NotAbove => Answer::NotAbove,
        Unaudited::NotFinite => Answer::NotFinite,
    }
}

// That a stage refused.
fn stopped(e: smoothing::Refusal) -> Answer
    ensures { outcome_of result ≡ stages.refused_by e }
{
    match e {
        smoothing::Refusal::InitialSegments => Answer::InitialSegments,
        smoothing::Refusal::Unsolved(e) => unsolved(e),
        smoothing::Refusal::Unaudited(e) => unaudited(e),
        smoothing::Refusal::RefinementsUsedUp(ratio) => Answer::RefinementsUsedUp(ratio),
        smoothing::Refusal::SegmentsUsedUp => Answer::SegmentsUsedUp,
        smoothing::Refusal::BadMidpoint => Answer::BadMidpoint,
        smoothing::Refusal::ErrorAboveTolerance => Answer::ErrorAboveTolerance,
    }
}

// The answer of a refusal.
pub(crate) fn answer_of(e: Refusal) -> Answer
    ensures { outcome_of result ≡ refused_by e }
{
    match e {
        Refusal::Input(e) => turned_away(e),
        Refusal::Stage(e) => stopped(e),
    }
}
