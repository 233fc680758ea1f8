// What a request or a curve chooses: each comes as a bool or a number.
ghost use Rattle.std.specs.Prelude.{◌≡◌};
ghost use Rattle.checks.specs.Request.{axes_of, tolerance_of};
ghost use Rattle.pamitoye.specs.Choices.{chosen_axes, chosen_tolerance, chosen_spacing, chosen_mode};

use checks::{Axes, Tolerance};
use curve::Mode;
use request::parameters::Spacing;

// All axes, or those of a list.
#[tactic(auto, unfolding(checks::specs::Request::axes_of))]
pub(crate) fn axes_of(all: bool, list: &[usize]) -> Axes<'_>
    ensures { axes_of result ≡ chosen_axes all list.now }
{
    if all {
        return Axes::All;
    }
    Axes::Listed(list)
}

// One tolerance, or those of a list.
#[tactic(auto, unfolding(checks::specs::Request::tolerance_of))]
pub(crate) fn tolerance_of(uniform: bool, x: f64, list: &[f64]) -> Tolerance<'_>
    ensures { tolerance_of result ≡ chosen_tolerance uniform x list.now }
{
    if uniform {
        return Tolerance::Uniform(x);
    }
    Tolerance::PerAxis(list)
}

// Even parameters (1), by chords (2), or those of a list (0, and any other number).
pub(crate) fn spacing_of(spacing: u64) -> Spacing
    ensures { result ≡ chosen_spacing spacing }
{
    if spacing == 1 {
        return Spacing::Even;
    }
    if spacing == 2 {
        return Spacing::Chord;
    }
    Spacing::Listed
}

// What a parameter outside start to end gets.
pub(crate) fn mode_of(clamp: bool) -> Mode
    ensures { result ≡ chosen_mode clamp }
{
    if clamp {
        return Mode::Clamp;
    }
    Mode::Error
}

// Whether it is the mode Clamp.
pub(crate) fn is_clamp(mode: Mode) -> bool
    ensures { chosen_mode result ≡ mode }
{
    match mode {
        Mode::Error => false,
        Mode::Clamp => true,
    }
}
