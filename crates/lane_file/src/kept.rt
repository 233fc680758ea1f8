// Whether a curve is well formed whose coefficients and widths are bit patterns.
ghost use Rattle.std.specs.Prelude.{◌≡◌, map, ◌+◌, ◌-◌, ◌≤◌, length};
ghost use Rattle.curve.specs.Form.{segments_formed, well_formed};
ghost use Rattle.lane_file.specs.Curves.{cells, number_of, slices_of};

use curve::Curve;
use curve::count::one_if;
use curve::form::{is_width, well_shaped};
use encoding::number;

// Whether the breaks of n segments rise and the patterns of their widths are kept from the cell `from` on:
// segments of which both hold are counted, as a loop that stops at the first of the others takes longer.
fn segments_formed(breaks: &[f64], cells: &[u64], from: usize, n: usize) -> bool
    requires { (n ≤ length breaks.now - 1) × (from + n ≤ length cells.now) }
    ensures { result ≡ segments_formed from n breaks.now (map number_of cells.now) }
{
    let mut kept = 0;
    for i in 0..n {
        let width = number(cells[from + i]);
        kept += one_if(is_width(width, breaks[i], breaks[i + 1]));
    }
    kept == n
}

// Whether the curve is well formed: what does not ask for each segment, then the segments of each set.
pub(crate) fn well_formed(
    curve: Curve,
    breaks: &[f64],
    coefficients: &[u64],
    other_breaks: &[f64],
    other_coefficients: &[u64],
) -> bool
    ensures { result ≡ well_formed curve (slices_of (cells breaks.now coefficients.now other_breaks.now
        other_coefficients.now)) }
{
    let n = curve.segments;
    let others = curve.other_segments;
    let k = curve.k;
    let d = curve.d;
    if !well_shaped(
        curve,
        breaks,
        coefficients.len(),
        other_breaks,
        other_coefficients.len(),
    ) {
        return false;
    }
    if !segments_formed(breaks, coefficients, 6 * (n * k), n) {
        return false;
    }
    segments_formed(
        other_breaks,
        other_coefficients,
        6 * (others * (d - k)),
        others,
    )
}
