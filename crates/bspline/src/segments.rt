// The spline as polynomials: for each span that has a width, six power coefficients for each axis,
// by the local parameter 0 to 1.
ghost use Rattle.std.specs.Prelude.{◌≡◌, ◌+◌, ◌-◌, ◌*◌, ◌≤◌, ◌<◌, length};
ghost use Rattle.arith.specs.Operations.{floats};
ghost use Rattle.arith.specs.Loop.{each};
ghost use Rattle.window.specs.Window.{window};
ghost use Rattle.window.specs.Rows.{join, written};
ghost use Rattle.bspline.specs.Segments.{add_turn, scaled_by, segment_of};
ghost use Rattle.bspline.specs.Placed.{span_put, count_put, spans_put, polynomial_at, segments_at};

use crate::Spline;

// Row r of the table, times a control's axis, is added to the coefficients.
fn add_row(p: &mut [f64; 6], rows: &[f64; 36], r: usize, c: f64)
    requires { r < 6 }
    ensures { p.new ≡ each (add_turn floats rows.now r c) 0 6 p.old }
{
    for k in 0..6 {
        p[k] += rows[6 * r + k] * c;
    }
}

// Coefficient k is multiplied by h to the k.
fn scale_by(p: &mut [f64; 6], h: f64)
    ensures { p.new ≡ scaled_by floats h p.old }
{
    let mut scale = 1.0;
    for k in 0..6 {
        p[k] *= scale;
        scale *= h;
    }
}

// One axis on a span of width h: the axis stands at `at` of the controls c for the span's first
// control, and d further on for each next one.
fn segment(rows: &[f64; 36], h: f64, c: &[f64], at: usize, d: usize) -> [f64; 6]
    requires { at + 5 * d < length c.now }
    ensures { result ≡ segment_of floats rows.now h c.now at d }
{
    let mut p = [0.0; 6];
    for r in 0..6 {
        add_row(&mut p, rows, r, c[at + r * d]);
    }
    scale_by(&mut p, h);
    p
}

// The segments of all d axes on a span, from `to` on.
fn put_axes(
    work: &mut [f64],
    c: usize,
    e: usize,
    at: usize,
    d: usize,
    rows: &[f64; 36],
    h: f64,
    to: usize,
)
    requires { (c + at + 6 * d ≤ e) × (e ≤ to) × (to + 6 * d ≤ length work.old) }
    ensures { work.new ≡ written to (join d (λ i. segment_of floats rows.now h (window c e work.old) (at + i)
        d)) work.old }
{
    for i in 0..d {
        let p = segment(rows, h, &work[c..e], at + i, d);
        let a = to + 6 * i;
        let b = a + 6;
        window::copy(&mut work[a..b], &p);
    }
}

// The span's break and segments, in their places after the n before them, unless it has no width.
// Gives the number of segments then.
fn put_span(
    work: &mut [f64],
    s: Spline,
    breaks: usize,
    coefficients: usize,
    span: usize,
    n: usize,
) -> usize
    requires { (5 ≤ span) × (span < s.count) × (n + 5 ≤ span)
        × (s.knots + s.count + 6 ≤ s.controls) × (s.controls + s.count * s.axes ≤ breaks)
        × (breaks + s.count ≤ coefficients + 4) × (coefficients + (s.count - 5) * (6 * s.axes) ≤ length work.old) }
    ensures { (result ≡ count_put s span n work.old)
        × (work.new ≡ span_put s breaks coefficients span n work.old) }
{
    let t = s.knots;
    let c = s.controls;
    let m = s.count;
    let d = s.axes;
    let e = t + m + 6;
    let f = c + m * d;
    let a = work[t + span];
    let h = work[t + span + 1] - a;
    if h <= 0.0 {
        return n;
    }
    let rows = crate::basis::powers(&work[t..e], span, a);
    put_axes(
        work,
        c,
        f,
        (span - 5) * d,
        d,
        &rows,
        h,
        coefficients + n * (6 * d),
    );
    work[breaks + n] = a;
    n + 1
}

// The breaks and segments of the spans from `from` up to `to`, span i as segment i - 5. Where no span is
// without a width, these are their places in the polynomial, and those of all other spans stay as they are.
pub fn put_spans(
    work: &mut [f64],
    s: Spline,
    breaks: usize,
    coefficients: usize,
    from: usize,
    to: usize,
)
    requires { (5 ≤ from) × (to ≤ s.count)
        × (s.knots + s.count + 6 ≤ s.controls) × (s.controls + s.count * s.axes ≤ breaks)
        × (breaks + s.count ≤ coefficients + 4) × (coefficients + (s.count - 5) * (6 * s.axes) ≤ length work.old) }
    ensures { work.new ≡ spans_put s breaks coefficients from to work.old }
{
    for span in from..to {
        put_span(work, s, breaks, coefficients, span, span - 5);
    }
}

// The source's `polynomial`: breaks from `breaks` on and coefficients from `coefficients` on, for the
// spline at `s`. Nothing else changes. Gives the number of segments.
pub fn polynomial(work: &mut [f64], s: Spline, breaks: usize, coefficients: usize) -> usize
    requires { (5 < s.count) × (s.knots + s.count + 6 ≤ s.controls) × (s.controls + s.count * s.axes ≤ breaks)
        × (breaks + s.count ≤ coefficients + 4) × (coefficients + (s.count - 5) * (6 * s.axes) ≤ length work.old) }
    ensures { (result ≡ segments_at s work.old)
        × (work.new ≡ polynomial_at s breaks coefficients work.old) }
{
    let mut n = 0;
    for span in 5..s.count {
        n = put_span(work, s, breaks, coefficients, span, n);
    }
    work[breaks + n] = 1.0;
    n
}
