// The rows of dense spans, one for each sample, with trapezoidal weights.
ghost use Rattle.std.specs.Prelude.{◌≡◌, ◌+◌, ◌-◌, ◌*◌, ◌<◌, ◌≤◌, length};
ghost use Rattle.window.specs.Cells.{at};
ghost use Rattle.fitting_rows.specs.Arrays.{ArraysWithin, arrays, arrays_at};
ghost use Rattle.fitting_rows.specs.Samples.{dense_of, weight_of, point_of, sample_span, sample_row_of};

use crate::Place;

// A span, and whether it is dense. Both stand beside each other: what is known of the last sample's span serves the next sample in it,
// so the span is asked of a sparse one too.
#[derive(Clone, Copy)]
pub struct Density {
    pub span: usize,
    pub dense: bool,
}

// Whether at least 8 samples lie in the span, its right end left out.
#[tactic(auto, unfolding(crate::specs::Samples::dense_of))]
pub fn is_dense(t: &[f64], s: &[f64], span: usize) -> bool
    requires { span + 1 < length t.now }
    ensures { result ≡ dense_of t.now s.now span }
{
    let begin = bspline::search::partition_point_lt(s, t[span]);
    let end = bspline::search::partition_point_lt(s, t[span + 1]);
    8 <= end.saturating_sub(begin)
}

// Half of the parameters' distance from the sample before i to the one after it, of n samples.
fn weight(s: &[f64], n: usize, i: usize) -> f64
    requires { (2 ≤ n) × (i < n) × (n ≤ length s.now) }
    ensures { result ≡ weight_of s.now n i }
{
    if i == 0 {
        return (s[1] - s[0]) / 2.0;
    }
    if i + 1 == n {
        return (s[i] - s[i - 1]) / 2.0;
    }
    (s[i + 1] - s[i - 1]) / 2.0
}

// The d cells of point i, and 0 up to 16.
#[tactic(auto, using(crate::proofs::Turns::loops), unfolding(crate::specs::Samples::point_of))]
pub fn point(y: &[f64], d: usize, i: usize) -> [f64; 16]
    requires { (d ≤ 16) × (i * d + d ≤ length y.now) }
    ensures { result ≡ point_of y.now d i }
{
    let mut cells = [0.0; 16];
    for axis in 0..d {
        cells[axis] = y[i * d + axis];
    }
    cells
}

// The row of sample i, of n, which lies in the span.
#[tactic(auto, unfolding(crate::specs::Samples::sample_row_of))]
fn sample_row(
    t: &[f64],
    c: &[f64],
    s: &[f64],
    y: &[f64],
    d: usize,
    n: usize,
    i: usize,
    span: usize,
) -> normal::Row
    requires le_span { (5 ≤ span) × (span + 5 < length t.now) × ((span - 5 + 6) * d ≤ length c.now) }
    requires d_bound { (d ≤ 16) × (2 ≤ n) × (i < n) × (n ≤ length s.now) × (i * d + d ≤ length y.now) }
    ensures { result ≡ sample_row_of (arrays t.now c.now 0 d s.now y.now n) i span }
{
    let basis = bspline::basis::values(t, span, s[i]);
    let w = weight(s, n, i);
    let target = point(y, d, i);
    normal::fitting_row(c, d, span - 5, basis, w, target)
}

// What is known before the first sample: the first span, and whether it is dense.
pub fn first_density(cells: &[f64], p: Place) -> Density
    requires { ArraysWithin p (length cells.now) }
    ensures { result.dense ≡ dense_of (arrays_at p cells.now).t (arrays_at p cells.now).s result.span }
{
    let t = p.knots;
    let t_end = t + (p.count + 6);
    let s = p.parameters;
    let s_end = s + p.samples;
    let dense = is_dense(&cells[t..t_end], &cells[s..s_end], 5);
    Density { span: 5, dense }
}

// The span of sample i, and whether it is dense; `seen` is what is known of a span.
pub fn look(cells: &[f64], p: Place, i: usize, seen: Density) -> Density
    requires arrays_within { ArraysWithin p (length cells.now) × (i < p.samples) }
    requires dense_value { seen.dense ≡ dense_of (arrays_at p cells.now).t (arrays_at p cells.now).s seen.span }
    ensures span_value { result.span ≡ sample_span (arrays_at p cells.now) i }
    ensures dense_value_2 { result.dense ≡ dense_of (arrays_at p cells.now).t (arrays_at p cells.now).s result.span }
{
    let t = p.knots;
    let m = p.count;
    let t_end = t + (m + 6);
    let s = p.parameters;
    let s_end = s + p.samples;
    let span = bspline::search::span(&cells[t..t_end], m, cells[s + i]);
    if span == seen.span {
        return seen;
    }
    let dense = is_dense(&cells[t..t_end], &cells[s..s_end], span);
    Density { span, dense }
}

// The row of sample i of the arrays at p; it lies in the span.
pub fn sample_row_at(cells: &[f64], p: Place, i: usize, span: usize) -> normal::Row
    requires { ArraysWithin p (length cells.now) × (i < p.samples) × (5 ≤ span) × (span < p.count) }
    ensures { result ≡ sample_row_of (arrays_at p cells.now) i span }
{
    let d = p.axes;
    let n = p.samples;
    let t = p.knots;
    let t_end = t + (p.count + 6);
    let c = p.controls;
    let c_end = c + p.count * d;
    let s = p.parameters;
    let s_end = s + n;
    let y = p.points;
    let y_end = y + n * d;
    sample_row(
        &cells[t..t_end],
        &cells[c..c_end],
        &cells[s..s_end],
        &cells[y..y_end],
        d,
        n,
        i,
        span,
    )
}
