// The coefficients of the return lane: segments in reverse, each as the polynomial of 1 - x.
ghost use Rattle.std.specs.Prelude.{◌≡◌, ◌+◌, ◌-◌, ◌*◌, ◌≤◌, ◌<◌, length};
ghost use Rattle.arith.specs.Operations.{floats};
ghost use Rattle.window.specs.Cells.{at};
ghost use Rattle.window.specs.Rows.{list_of, written};
ghost use Rattle.return_lane.specs.Segment.{sign, return_coefficient};
ghost use Rattle.return_lane.specs.Return.{return_segment, return_coefficients};

use bspline::choose::choose;

// (-1)^k.
fn sign_of(k: usize) -> f64
    requires { k < 6 }
    ensures { result ≡ sign floats k }
{
    if k % 2 == 0 { 1.0 } else { -1.0 }
}

// Coefficient k of the six that lie from the cell `from` on, driven back.
fn coefficient(p: &[f64], from: usize, k: usize) -> f64
    requires { (k < 6) × (from + 6 ≤ length p.now) }
    ensures { result ≡ return_coefficient floats (λ j. at p.now (from + j)) k }
{
    let mut sum = 0.0;
    for j in k..6 {
        sum += choose(j, k) * p[from + j];
    }
    sign_of(k) * sum
}

// The six that lie from the cell `from` on, driven back, to the cells from `to` on.
fn put_six(p: &[f64], from: usize, to: usize, cells: &mut [f64])
    requires { (from + 6 ≤ length p.now) × (to + 6 ≤ length cells.old) }
    ensures { cells.new
        ≡ written to (list_of 6 (return_coefficient floats (λ j. at p.now (from + j)))) cells.old }
{
    for k in 0..6 {
        cells[to + k] = coefficient(p, from, k);
    }
}

// Segment i of m axes, driven back, to the cells from `to` on.
fn put_segment(m: usize, p: &[f64], i: usize, to: usize, cells: &mut [f64])
    requires { (6 * (i * m + m) ≤ length p.now) × (to + 6 * m ≤ length cells.old) }
    ensures { cells.new ≡ written to (return_segment m p.now i) cells.old }
{
    for a in 0..m {
        put_six(p, 6 * (i * m + a), to + 6 * a, cells);
    }
}

// All n segments of m axes, in reverse, to the first cells.
pub fn put_segments(m: usize, n: usize, p: &[f64], cells: &mut [f64])
    requires { (6 * (n * m) ≤ length p.now) × (6 * (n * m) ≤ length cells.old) }
    ensures { cells.new ≡ written 0 (return_coefficients m n p.now) cells.old }
{
    for i in 0..n {
        put_segment(m, p, n - (i + 1), 6 * (i * m), cells);
    }
}
