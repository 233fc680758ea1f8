// The curve of a case, and the parts of its cells.
ghost use Rattle.std.specs.Prelude.{◌≡◌, ◌++◌, ◌∷◌, IfSome};
ghost use Rattle.listing.specs.Axes.{axes_of};

use curve::{Curve, Mode};
use listing::curves::Slices;
use listing::{axes, curves};

// The slices whose own counts are whole numbers 8 to 11; the sixteenth counts the queries, which follow.
pub fn counted_slices<'a>(wholes: &[u64; 16], cells: &'a [f64]) -> Option<Slices<'a>>
    ensures { IfSome result (λ s. cells.now ≡ s.start ∷ s.end ∷ (s.breaks.now ++ (s.coefficients.now
        ++ (s.other_breaks.now ++ (s.other_coefficients.now ++ s.rest.now))))) }
{
    let p = curves::cut(
        cells,
        wholes[8] as usize,
        wholes[9] as usize,
        wholes[10] as usize,
        wholes[11] as usize,
    )?;
    if p.rest.len() as u64 != wholes[15] {
        return None;
    }
    Some(p)
}

// The curve of whole numbers d, k, the segments of both sets and four of axes.
pub fn curve_of(wholes: &[u64; 16], start: f64, end: f64, mode: Mode) -> Curve
    ensures { (result.axes ≡ axes_of 16 wholes.now 4) × (result.start ≡ start) × (result.end ≡ end) }
{
    curves::curve_of(wholes, axes::axes_of(wholes, 4), start, end, mode)
}
