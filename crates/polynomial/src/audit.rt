// The audit of a range of waypoint intervals, over the parts of one lent slice.
ghost use Rattle.std.specs.Prelude.{◌≡◌, ◌+◌, ◌-◌, ◌*◌, ◌≤◌, ◌<◌, length, set, IfOk};
ghost use Rattle.window.specs.Cells.{at};
ghost use Rattle.polynomial.specs.Span.{break_span};
ghost use Rattle.polynomial.specs.Interval.{Ends};
ghost use Rattle.polynomial.specs.Audit.{bounds_with};
ghost use Rattle.polynomial.specs.Placed.{PartsLaid, breaks_at, parameters_at, bounds_at, witness_at, interval_at, audit_at, with_bounds};

use crate::interval::{Ended, Unaudited};

// Where a curve with `segments` segments of `axes` axes lies in a lent slice, its waypoints, of which
// there are `samples`, and for each interval between two of them `axes` bounds and a witness.
#[derive(Clone, Copy)]
pub struct Parts {
    pub parameters: usize,
    pub points: usize,
    pub bounds: usize,
    pub witness: usize,
    pub breaks: usize,
    pub coefficients: usize,
    pub segments: usize,
    pub samples: usize,
    pub axes: usize,
}

// How the audit ended, and how many intervals it checked.
#[derive(Clone, Copy)]
pub struct Audited {
    pub outcome: Result<(), Unaudited>,
    pub checked: usize,
}

// The segment in which waypoint i of the curve at p lies.
fn span_at(work: &[f64], p: Parts, i: usize) -> usize
    requires { PartsLaid p (length work.now) × (i < p.samples) }
    ensures { (result ≡ break_span (breaks_at p work.now) (at (parameters_at p work.now) i)) × (result < p.segments) }
{
    let b = p.breaks;
    let e = b + p.segments + 1;
    let s = p.parameters;
    crate::span::span(&work[b..e], work[s + i])
}
// Interval i of the curve at p, from segment `span` on; its bounds go to `bounds`.
fn interval_at(
    bounds: &mut [f64],
    work: &[f64],
    p: Parts,
    i: usize,
    span: usize,
) -> Result<Ended, Unaudited>
    requires { (length bounds.old ≡ p.axes) × PartsLaid p (length work.now) × (i + 1 < p.samples) × (span < p.segments) }
    ensures ends { Ends bounds.new result (interval_at p i span work.now) }
    ensures inside { IfOk result (λ ended. ended.span < p.segments) }
{
    let d = p.axes;
    let b = p.breaks;
    let b_end = b + p.segments + 1;
    let c = p.coefficients;
    let c_end = c + p.segments * (6 * d);
    let s = p.parameters;
    let s_end = s + p.samples;
    let y = p.points;
    let y_end = y + p.samples * d;
    let w = p.witness;
    crate::interval::audit_interval(
        bounds,
        &work[b..b_end],
        &work[c..c_end],
        &work[s..s_end],
        &work[y..y_end],
        d,
        i,
        span,
        work[w + i],
    )
}

// The first d of the cells, from `row` on.
fn put_bounds(bounds: &mut [f64], row: usize, d: usize, cells: &[f64])
    requires { (d ≤ length cells.now) × (row + d ≤ length bounds.old) }
    ensures { bounds.new ≡ bounds_with row d cells.now bounds.old }
{
    bounds[row..row + d].copy_from_slice(&cells[..d]);
}

// The bounds and the witness of interval i.
fn put(work: &mut [f64], p: Parts, i: usize, cells: &[f64], x: f64)
    requires { PartsLaid p (length work.old) × (i + 1 < p.samples) × (p.axes ≤ length cells.now) }
    ensures { work.new ≡ with_bounds p (bounds_with (i * p.axes) p.axes cells.now
        (bounds_at p work.old))
        (set (witness_at p work.old) i x) work.old }
{
    let d = p.axes;
    let b = p.bounds;
    let e = b + (p.samples - 1) * d;
    let w = p.witness;
    let f = w + (p.samples - 1);
    put_bounds(&mut work[b..e], i * d, d, cells);
    let witness = &mut work[w..f];
    witness[i] = x;
}

// The audit of the curve at p; an interval's bounds are collected in `cells`, one for each axis.
fn audit_with(work: &mut [f64], p: Parts, first: usize, last: usize, cells: &mut [f64]) -> Audited
    requires { PartsLaid p (length work.old) × (first < p.samples) × (last < p.samples) × (length cells.old ≡ p.axes) }
    ensures { (result.outcome ≡ (audit_at p first last work.old).outcome)
        × (result.checked ≡ (audit_at p first last work.old).checked)
        × (work.new ≡ with_bounds p (audit_at p first last work.old).bounds
        (audit_at p first last work.old).witness work.old) }
{
    let mut k = span_at(work, p, first);
    let mut checked = 0;
    for i in first..last {
        match interval_at(cells, work, p, i, k) {
            Ok(r) => {
                put(work, p, i, cells, r.witness);
                k = r.span;
                checked += 1;
            }
            Err(e) => {
                return Audited {
                    outcome: Err(e),
                    checked,
                };
            }
        }
    }
    Audited {
        outcome: Ok(()),
        checked,
    }
}

// The source's `audit` of the curve at p, over the intervals from `first` up to `last`. Their bounds
// and witnesses are new, or those before the refused one; nothing else changes.
pub fn audit(work: &mut [f64], p: Parts, first: usize, last: usize) -> Audited
    requires { PartsLaid p (length work.old) × (first < p.samples) × (last < p.samples) }
    ensures { (result.outcome ≡ (audit_at p first last work.old).outcome)
        × (result.checked ≡ (audit_at p first last work.old).checked)
        × (work.new ≡ with_bounds p (audit_at p first last work.old).bounds
        (audit_at p first last work.old).witness work.old) }
{
    let mut cells = [0.0; 16];
    let d = p.axes;
    audit_with(work, p, first, last, &mut cells[0..d])
}
