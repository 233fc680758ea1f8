// The rows of the system: one for each waypoint, and two for each end, where the first and the second
// derivative are 0.
ghost use Rattle.std.specs.Prelude.{◌≡◌, [], ◌<◌, length};
ghost use Rattle.fitting_rows.specs.Arrays.{ArraysWithin, arrays_at};
ghost use Rattle.smoothing.specs.Interpolate.{derivative_of};
ghost use Rattle.interpolation.specs.Rows.{waypoint_row, end_row};

use bspline::choose::FACT;
use fitting_rows::Place;

// The row of waypoint i.
pub fn waypoint_row(cells: &[f64], q: Place, i: usize) -> normal::Row
    requires { ArraysWithin q (length cells.now) × (i < q.samples) }
    ensures { result ≡ waypoint_row (arrays_at q cells.now) i }
{
    let d = q.axes;
    let m = q.count;
    let t = q.knots;
    let t_end = t + (m + 6);
    let c = q.controls;
    let c_end = c + m * d;
    let y = q.points;
    let y_end = y + q.samples * d;
    let x = cells[q.parameters + i];
    let span = bspline::search::span(&cells[t..t_end], m, x);
    let basis = bspline::basis::values(&cells[t..t_end], span, x);
    let target = fitting_rows::samples::point(&cells[y..y_end], d, i);
    normal::fitting_row(&cells[c..c_end], d, span - 5, basis, 1.0, target)
}

// The derivatives of order r of six functions with these powers, for an interval that is h wide.
fn derivative(powers: [f64; 36], h: f64, r: usize) -> [f64; 6]
    requires { r < 6 }
    ensures { result ≡ derivative_of 0 0 [] [] powers h r }
{
    let factorial = FACT[r];
    let scale = float::powi(h, r as u32);
    let mut values = [0.0; 6];
    for i in 0..6 {
        values[i] = powers[6 * i + r] * factorial * scale;
    }
    values
}

// The row of the derivative of order r at an end u whose interval is h wide.
pub fn end_row(cells: &[f64], q: Place, u: f64, h: f64, r: usize) -> normal::Row
    requires { ArraysWithin q (length cells.now) × (r < 6) }
    ensures { result ≡ end_row (arrays_at q cells.now) u h r }
{
    let d = q.axes;
    let m = q.count;
    let t = q.knots;
    let t_end = t + (m + 6);
    let c = q.controls;
    let c_end = c + m * d;
    let span = bspline::search::span(&cells[t..t_end], m, u);
    let powers = bspline::basis::powers(&cells[t..t_end], span, u);
    let basis = derivative(powers, h, r);
    let target = [0.0; 16];
    normal::fitting_row(&cells[c..c_end], d, span - 5, basis, 1.0, target)
}
