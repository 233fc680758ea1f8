// One more knot, in place: the curve stays as it is. The cells after the knot move right by one, and
// the controls after it by one control.
ghost use Rattle.std.specs.Prelude.{◌≡◌, ◌++◌, ◌+◌, ◌-◌, ◌*◌, ◌≤◌, ◌<◌, length, take, drop};
ghost use Rattle.arith.specs.Operations.{floats};
ghost use Rattle.window.specs.Window.{window, splice};
ghost use Rattle.bspline.specs.Insertion.{alpha_of, weights_of, weight_at, knots_with, mixed_controls, mixed_row};
ghost use Rattle.bspline.specs.Placed.{inserted_at};

use crate::Spline;

// The cells from `from` up to n, `by` places further right.
fn shift(s: &mut [f64], from: usize, n: usize, by: usize)
    requires { (from ≤ n) × (n + by ≤ length s.old) }
    ensures { s.new ≡ splice (from + by) (n + by) (window from n s.old) s.old }
{
    for i in (from..n).rev() {
        s[i + by] = s[i];
    }
}

// The knot x after the knot at k, of n knots. The cells after the n + 1 are unchanged.
fn insert_knot(t: &mut [f64], x: f64, n: usize, k: usize)
    requires { (k < n) × (n < length t.old) }
    ensures { t.new ≡ knots_with x k (take n t.old) ++ drop (n + 1) t.old }
{
    shift(t, k + 1, n, 1);
    t[k + 1] = x;
}

// The weight of control i.
fn weight(t: &[f64], x: f64, i: usize) -> f64
    requires { i + 5 < length t.now }
    ensures { result ≡ alpha_of floats t.now x i }
{
    (x - t[i]) / (t[i + 5] - t[i])
}

// The weights of the controls k - 4 to k.
fn insert_weights(t: &[f64], k: usize, x: f64) -> [f64; 5]
    requires { (5 ≤ k) × (k + 5 < length t.now) }
    ensures { result ≡ weights_of floats t.now x k }
{
    let mut alpha = [0.0; 5];
    for r in 0..5 {
        alpha[r] = weight(t, x, k - 4 + r);
    }
    alpha
}

// The control at `at` mixed with the one before it.
fn mix_row(c: &mut [f64], d: usize, at: usize, a: f64)
    requires { (d ≤ at) × (at + d ≤ length c.old) }
    ensures { c.new ≡ splice at (at + d) (mixed_row floats a d at c.old) c.old }
{
    for j in 0..d {
        c[at + j] = (1.0 - a) * c[at - d + j] + a * c[at + j];
    }
}

// The m + 1 controls of d axes from the m, for a knot in span k. The cells after them are unchanged.
fn insert_controls(c: &mut [f64], w: [f64; 5], d: usize, m: usize, k: usize)
    requires { (5 ≤ k) × (k < m) × ((m + 1) * d ≤ length c.old) }
    ensures { c.new ≡ mixed_controls floats (weight_at floats w k) d m k (take (m * d) c.old) ++ drop
        ((m + 1) * d) c.old }
{
    shift(c, k * d, m * d, d);
    let low = k - 4;
    for i in (low..k + 1).rev() {
        mix_row(c, d, i * d, w[i - low]);
    }
}

// The source's `insert`: the spline at `s` has one knot and one control more, each list in its place
// with room for one more, and nothing else changes. The curve stays as it is where x lies strictly
// inside a span (document 01); what is written is said for every x.
pub fn insert(work: &mut [f64], s: Spline, x: f64)
    requires { (5 < s.count) × (s.knots + s.count + 7 ≤ s.controls) × (s.controls + (s.count + 1) * s.axes ≤ length work.old) }
    ensures { work.new ≡ inserted_at s x work.old }
{
    let t = s.knots;
    let c = s.controls;
    let m = s.count;
    let d = s.axes;
    let e = t + m + 6;
    let k = crate::search::span(&work[t..e], m, x);
    let w = insert_weights(&work[t..e], k, x);
    let f = c + (m + 1) * d;
    insert_controls(&mut work[c..f], w, d, m, k);
    let g = e + 1;
    insert_knot(&mut work[t..g], x, m + 6, k);
}
