// One axis on one segment: its value with its three derivatives.
ghost use Rattle.std.specs.Prelude.{◌≡◌, ◌+◌, ◌-◌, ◌*◌, ◌≤◌, ◌<◌, length};
ghost use Rattle.curve.specs.Form.{width_of};
ghost use Rattle.query.specs.Search.{RisingBreaks, Begins, Widths};
ghost use Rattle.query.specs.Segment.{horner_of, at_of, local_on, located, coefficients_of, scaled_of, axis_at};

use crate::search;
use bspline::choose::FACT;

// The value of an axis with its three derivatives.
#[derive(Clone, Copy)]
pub struct Derivatives {
    pub value: f64,
    pub first: f64,
    pub second: f64,
    pub third: f64,
}

// Where a parameter lies in a set: the segment, the local parameter there, 0 to 1, and the segment's
// width.
#[derive(Clone, Copy)]
pub struct Local {
    pub span: usize,
    pub u: f64,
    pub width: f64,
}

// The derivative of order r by the local parameter u, by Horner's rule.
fn horner(p: &[f64], u: f64, r: usize) -> f64
    requires { (6 ≤ length p.now) × (r < 6) }
    ensures { result ≡ horner_of p.now u r }
{
    let mut v = 0.0;
    for k in (r..6).rev() {
        v = v * u + p[k] * FACT[k] / FACT[k - r];
    }
    v
}

// The polynomial with the coefficients p, at the local parameter u of a segment of that width.
fn at(p: &[f64], u: f64, width: f64) -> Derivatives
    requires { 6 ≤ length p.now }
    ensures { result ≡ at_of p.now u width }
{
    Derivatives {
        value: horner(p, u, 0) / float::powi(width, 0),
        first: horner(p, u, 1) / float::powi(width, 1),
        second: horner(p, u, 2) / float::powi(width, 2),
        third: horner(p, u, 3) / float::powi(width, 3),
    }
}

// By the curve's parameter instead of the one that goes from 0 to 1; `scale` is 1 over its length.
fn scaled(v: Derivatives, scale: f64) -> Derivatives
    ensures { result ≡ scaled_of scale v }
{
    let f = 1.0;
    let f1 = f * scale;
    let f2 = f1 * scale;
    let f3 = f2 * scale;
    Derivatives {
        value: v.value * f,
        first: v.first * f1,
        second: v.second * f2,
        third: v.third * f3,
    }
}

// Where x lies on a span that is known, whose width is kept.
fn on_span(breaks: &[f64], span: usize, width: f64, x: f64) -> Local
    requires { (span < length breaks.now) × (width ≡ width_of breaks.now span) }
    ensures { result ≡ local_on breaks.now span x }
{
    Local {
        span,
        u: (x - breaks[span]) / width,
        width,
    }
}

// Where x lies among the breaks, of which the segment `near` is tried first; the widths of the segments
// lie in `cells`, from the cell `from` on. A set without segments has nothing to find.
pub fn locate(breaks: &[f64], cells: &[f64], from: usize, x: f64, near: usize) -> Local
    requires { RisingBreaks breaks.now × Begins breaks.now near × Widths breaks.now cells.now from }
    ensures { result ≡ located breaks.now x }
{
    if breaks.len() < 2 {
        return Local {
            span: 0,
            u: 0.0,
            width: 0.0,
        };
    }
    let span = search::span(breaks, x, near);
    on_span(breaks, span, cells[from + span], x)
}

// Where a search may begin: at the segment `near` if there is such a one, otherwise at the first.
pub fn begin(breaks: &[f64], near: usize) -> usize
    ensures { Begins breaks.now result }
{
    if near < breaks.len().saturating_sub(1) {
        near
    } else {
        0
    }
}

// The six coefficients of the axis at a place, a part of whichever slice holds them: the selected
// set's, of k axes, where the place is below k, otherwise the other set's, of m axes.
pub fn coefficients<'a>(
    selected: &'a [f64],
    other: &'a [f64],
    k: usize,
    m: usize,
    place: usize,
    span: usize,
    other_span: usize,
) -> &'a [f64]
    requires { (place < k + m) × (6 * (span * k + k) ≤ length selected.now)
        × (6 * (other_span * m + m) ≤ length other.now) }
    ensures { result.now ≡ coefficients_of selected.now other.now k m place span other_span }
{
    if place < k {
        let from = 6 * (span * k + place);
        let to = from + 6;
        return &selected[from..to];
    }
    let from = 6 * (other_span * m + (place - k));
    let to = from + 6;
    &other[from..to]
}

// The axis at a place, where the parameter lies at `here` in the selected set and at `there` in the
// other.
pub fn axis<'a>(
    selected: &'a [f64],
    other: &'a [f64],
    k: usize,
    m: usize,
    place: usize,
    here: Local,
    there: Local,
    scale: f64,
) -> Derivatives
    requires { (place < k + m) × (6 * (here.span * k + k) ≤ length selected.now)
        × (6 * (there.span * m + m) ≤ length other.now) }
    ensures { result ≡ axis_at selected.now other.now k m place here there scale }
{
    let p = coefficients(selected, other, k, m, place, here.span, there.span);
    if place < k {
        return scaled(at(p, here.u, here.width), scale);
    }
    scaled(at(p, there.u, there.width), scale)
}
