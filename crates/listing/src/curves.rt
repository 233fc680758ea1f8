// The curve of a case, and the parts of its cells.
ghost use Rattle.std.specs.Prelude.{◌≡◌, ◌++◌, [], ◌∷◌, IfSome};
ghost use Rattle.listing.specs.Modes.{mode_of, spacing_of};

use curve::{Curve, Mode};
use request::parameters::Spacing;

// A curve's ends and slices at the start of a case's cells, and the cells after them.
#[derive(Clone, Copy)]
pub struct Slices<'a> {
    pub start: f64,
    pub end: f64,
    pub breaks: &'a [f64],
    pub coefficients: &'a [f64],
    pub other_breaks: &'a [f64],
    pub other_coefficients: &'a [f64],
    pub rest: &'a [f64],
}

// The slices of the given counts of cells, one after the other; None where there are fewer cells.
pub fn cut(
    cells: &[f64],
    breaks: usize,
    coefficients: usize,
    other_breaks: usize,
    other_coefficients: usize,
) -> Option<Slices<'_>>
    ensures { IfSome result (λ s. cells.now ≡ s.start ∷ s.end ∷ (s.breaks.now ++ (s.coefficients.now
        ++ (s.other_breaks.now ++ (s.other_coefficients.now ++ s.rest.now))))) }
{
    let (start, rest) = cells.split_first()?;
    let (end, rest) = rest.split_first()?;
    let (breaks, rest) = rest.split_at_checked(breaks)?;
    let (coefficients, rest) = rest.split_at_checked(coefficients)?;
    let (other_breaks, rest) = rest.split_at_checked(other_breaks)?;
    let (other_coefficients, rest) = rest.split_at_checked(other_coefficients)?;
    Some(Slices {
        start: *start,
        end: *end,
        breaks,
        coefficients,
        other_breaks,
        other_coefficients,
        rest,
    })
}

// The curve of whole numbers d, k and the segments of both sets, which a case of a curve starts with.
pub fn curve_of(wholes: &[u64; 16], axes: [usize; 16], start: f64, end: f64, mode: Mode) -> Curve
    ensures { (result.axes ≡ axes) × (result.start ≡ start) × (result.end ≡ end) }
{
    Curve {
        d: wholes[0] as usize,
        k: wholes[1] as usize,
        axes,
        start,
        end,
        mode,
        segments: wholes[2] as usize,
        other_segments: wholes[3] as usize,
    }
}

// Mode Error is 0, Clamp 1.
pub fn mode_of(mode: u64) -> Option<Mode>
    ensures { result ≡ mode_of mode }
{
    match mode {
        0 => Some(Mode::Error),
        1 => Some(Mode::Clamp),
        _ => None,
    }
}

// Parameters are even in mode 0, listed in mode 1, by chords in mode 2.
pub fn spacing_of(mode: u64) -> Option<Spacing>
    ensures { result ≡ spacing_of mode }
{
    match mode {
        0 => Some(Spacing::Even),
        1 => Some(Spacing::Listed),
        2 => Some(Spacing::Chord),
        _ => None,
    }
}
