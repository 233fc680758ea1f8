// The rows of the third derivative: three Gauss nodes on each span.
ghost use Rattle.std.specs.Prelude.{◌≡◌, ◌+◌, ◌-◌, ◌*◌, ◌<◌, ◌≤◌, [], length};
ghost use Rattle.fitting_rows.specs.Arrays.{ArraysWithin, arrays, arrays_at};
ghost use Rattle.fitting_rows.specs.Penalty.{third_of, penalty_row_of, left_out};

use crate::Place;

const NODES: [f64; 3] = [0.1127016653792583, 0.5, 0.8872983346207417];

const WEIGHTS: [f64; 3] = [5.0 / 18.0, 4.0 / 9.0, 5.0 / 18.0];

// The third derivatives of six functions with these powers.
fn third(powers: [f64; 36]) -> [f64; 6]
    ensures { result ≡ third_of powers }
{
    let mut values = [0.0; 6];
    for i in 0..6 {
        values[i] = 6.0 * powers[6 * i + 3];
    }
    values
}

// The row of node r on a span.
fn penalty_row(t: &[f64], c: &[f64], d: usize, strength: f64, span: usize, r: usize) -> normal::Row
    requires { (5 ≤ span) × (span + 5 < length t.now) × ((span - 5 + 6) * d ≤ length c.now) × (d ≤ 16) × (r < 3) }
    ensures { result ≡ penalty_row_of (arrays t.now c.now 0 d [] [] 0) strength span r }
{
    let left = t[span];
    let h = t[span + 1] - left;
    let powers = bspline::basis::powers(t, span, left + NODES[r] * h);
    let basis = third(powers);
    let weight = strength * float::powi(h, 7) * WEIGHTS[r];
    let target = [0.0; 16];
    normal::fitting_row(c, d, span - 5, basis, weight, target)
}

// The same for the arrays at p.
pub fn penalty_row_at(cells: &[f64], p: Place, strength: f64, span: usize, r: usize) -> normal::Row
    requires { ArraysWithin p (length cells.now) × (5 ≤ span) × (span < p.count) × (r < 3) }
    ensures { result ≡ penalty_row_of (arrays_at p cells.now) strength span r }
{
    let d = p.axes;
    let t = p.knots;
    let t_end = t + (p.count + 6);
    let c = p.controls;
    let c_end = c + p.count * d;
    penalty_row(&cells[t..t_end], &cells[c..c_end], d, strength, span, r)
}

// Whether the span is left out, for the window from lo to hi.
#[tactic(auto, unfolding(crate::specs::Penalty::left_out))]
fn leaves_out(t: &[f64], lo: f64, hi: f64, span: usize) -> bool
    requires { span + 1 < length t.now }
    ensures { result ≡ left_out t.now lo hi span }
{
    let left = t[span];
    let right = t[span + 1];
    right - left <= 0.0 || hi <= left || right <= lo
}

// The same for the arrays at p.
pub fn is_left_out(cells: &[f64], p: Place, lo: f64, hi: f64, span: usize) -> bool
    requires { ArraysWithin p (length cells.now) × (span < p.count) }
    ensures { result ≡ left_out (arrays_at p cells.now).t lo hi span }
{
    let t = p.knots;
    let t_end = t + (p.count + 6);
    leaves_out(&cells[t..t_end], lo, hi, span)
}
