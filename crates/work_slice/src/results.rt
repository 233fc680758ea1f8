// An accepted curve, from the work slice to the result slices: their used cells, and no others.
ghost use Rattle.std.specs.Prelude.{◌≡◌, ◌+◌, ◌-◌, ◌*◌, ◌≤◌, ◌<◌, length, take};
ghost use Rattle.window.specs.Window.{window};
ghost use Rattle.refinement.specs.Memory.{Roomy, memory_at};
ghost use Rattle.curve.specs.Form.{with_widths};
ghost use Rattle.window.specs.Cells.{onto};
ghost use Rattle.work_slice.specs.Rows.{other_in};

use curve::widths;
use refinement::plan::Plan;

// A curve of so many segments and k axes, whose breaks lie from `a` on and whose coefficients from `c`
// on; the widths of its segments follow on the coefficients.
fn put_curve(
    cells: &[f64],
    a: usize,
    c: usize,
    segments: usize,
    k: usize,
    breaks: &mut [f64],
    coefficients: &mut [f64],
)
    requires { (k ≤ 16) × (segments ≤ 20016) × (a + segments + 1 ≤ length cells.now) × (c + segments * (6 * k) ≤ length cells.now)
        × (segments + 1 ≤ length breaks.old) × (segments * (6 * k) + segments ≤ length coefficients.old) }
    ensures breaks_after { breaks.new ≡ onto (window a (a + segments + 1) cells.now) breaks.old }
    ensures coefficients_after { coefficients.new ≡ onto (with_widths (window a (a + segments + 1) cells.now)
        (window c (c + segments * (6 * k)) cells.now)) coefficients.old }
{
    let a_end = a + segments + 1;
    let rows = segments * (6 * k);
    let c_end = c + rows;
    window::copy(breaks, &cells[a..a_end]);
    window::copy(coefficients, &cells[c..c_end]);
    widths::put_widths(&cells[a..a_end], rows, coefficients);
}

// The breaks and the coefficients of the selected axes, with the widths.
pub fn put_selected(work: &[f64], p: Plan, breaks: &mut [f64], coefficients: &mut [f64])
    requires { Roomy p (length work.now) × (p.count - 5 + 1 ≤ length breaks.old)
        × ((p.count - 5) * (6 * p.axes) + (p.count - 5) ≤ length coefficients.old) }
    ensures breaks_after { breaks.new ≡ onto (memory_at p work.now).breaks breaks.old }
    ensures coefficients_after { coefficients.new ≡ onto (with_widths (memory_at p work.now).breaks
        (memory_at p work.now).coefficients) coefficients.old }
{
    let e = p.room;
    let b = e * p.axes;
    put_curve(
        work,
        13 * e + 4 * b,
        14 * e + 4 * b,
        p.count - 5,
        p.axes,
        breaks,
        coefficients,
    );
}

// The breaks and the coefficients of the j other axes, with the widths, from a part of the work slice.
pub fn put_other(
    part: &[f64],
    room: usize,
    n: usize,
    j: usize,
    segments: usize,
    breaks: &mut [f64],
    coefficients: &mut [f64],
)
    requires { (j ≤ 16) × (segments < n) × (n + 16 ≤ room) × (room ≤ 20016) × (10 * room + 8 * (room * j) ≤ length part.now)
        × (n ≤ length breaks.old) × (segments * (6 * j) + segments ≤ length coefficients.old) }
    ensures breaks_after { breaks.new ≡ onto (other_in n j room segments part.now).breaks breaks.old }
    ensures coefficients_after { coefficients.new ≡ onto (with_widths (other_in n j room segments part.now).breaks
        (other_in n j room segments part.now).coefficients) coefficients.old }
{
    if j == 0 {
        return;
    }
    let b = room * j;
    put_curve(
        part,
        9 * room + 2 * b,
        10 * room + 2 * b,
        segments,
        j,
        breaks,
        coefficients,
    );
}

// The errors of k axes.
pub fn put_errors(from: &[f64; 16], k: usize, errors: &mut [f64])
    requires { (k ≤ 16) × (k ≤ length errors.old) }
    ensures { errors.new ≡ onto (take k from.now) errors.old }
{
    window::copy(errors, &from[0..k]);
}
