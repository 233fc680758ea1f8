// The whole controls of a segment.
ghost use Rattle.std.specs.Prelude.{◌≡◌, ◌+◌, ◌*◌, ◌<◌, ◌≤◌, length};
ghost use Rattle.heights.specs.Controls.{segment_form, controls_in};
ghost use Rattle.heights.specs.Lifted.{ControlsFrom};

use crate::rounding;
use polynomial::piece;

// The whole controls of these Bernstein controls, each as the number by which it lies above -2,000,000;
// none where one is turned away by 28.
fn wholes(b: [f64; 6]) -> Option<[u64; 6]>
    ensures { ControlsFrom b result }
{
    let mut cells = [0u64; 6];
    for k in 0..6 {
        cells[k] = rounding::nearest_whole(b[k] * 100.0)?;
    }
    Some(cells)
}

// The whole controls of the segment from a to b with the powers p.
pub fn of_segment(p: &[f64], a: f64, b: f64) -> Option<[u64; 6]>
    requires { length p.now ≡ 6 }
    ensures { ControlsFrom (segment_form a b p.now) result }
{
    let width = b - a;
    wholes(piece::curve_form(p, (a - a) / width, width / width))
}

// The whole controls, on segment i, of the axis at a place of the m axes of a set.
pub(crate) fn on_segment(
    breaks: &[f64],
    coefficients: &[f64],
    m: usize,
    place: usize,
    i: usize,
) -> Option<[u64; 6]>
    requires { (i + 1 < length breaks.now) × (6 * (i * m + place) + 6 ≤ length coefficients.now) }
    ensures { ControlsFrom (controls_in breaks.now coefficients.now m place i) result }
{
    let from = 6 * (i * m + place);
    let to = from + 6;
    of_segment(&coefficients[from..to], breaks[i], breaks[i + 1])
}
