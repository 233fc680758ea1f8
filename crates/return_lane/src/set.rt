// One set of a curve, driven back.
ghost use Rattle.std.specs.Prelude.{◌≡◌, ◌+◌, ◌-◌, ◌*◌, ◌≤◌, length};
ghost use Rattle.window.specs.Rows.{written};
ghost use Rattle.curve.specs.Form.{with_widths};
ghost use Rattle.return_lane.specs.Return.{return_breaks, return_coefficients};

use crate::breaks::put_breaks;
use crate::segments::put_segments;
use curve::widths::put_widths;

// n segments of m axes, with their new widths, to the first cells of the two lent slices.
pub fn put_set(
    m: usize,
    n: usize,
    breaks: &[f64],
    coefficients: &[f64],
    lent_breaks: &mut [f64],
    lent_coefficients: &mut [f64],
)
    requires { (length breaks.now ≤ length lent_breaks.old) × (6 * (n * m) ≤ length coefficients.now)
        × (6 * (n * m) + (length breaks.now - 1) ≤ length lent_coefficients.old) }
    ensures lent_breaks_after { lent_breaks.new ≡ written 0 (return_breaks breaks.now) lent_breaks.old }
    ensures lent_coefficients_after { lent_coefficients.new
        ≡ written 0 (with_widths (return_breaks breaks.now) (return_coefficients m n coefficients.now))
        lent_coefficients.old }
{
    let count = breaks.len();
    put_breaks(breaks, lent_breaks);
    put_segments(m, n, coefficients, lent_coefficients);
    put_widths(&lent_breaks[0..count], 6 * (n * m), lent_coefficients);
}
