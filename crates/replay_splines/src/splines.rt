// Cases of crate `bspline`.
ghost use Rattle.std.specs.Prelude.{◌+◌, ◌<◌, ◌≤◌, length, IfSome};
ghost use Rattle.listing.specs.Lines.{Unanswered};

use bspline::{Spline, basis, insertion, search, segments};
use listing::list::Head;
use listing::output::Output;

// Kinds 20 and 21, whole number n: x, and a list of n, of which `find` counts a part.
fn point<F: Fn(&[f64], f64) -> usize>(
    name: &[u8],
    find: F,
    head: Head,
    cells: &[f64],
    out: &mut Output,
) -> Option<()>
    requires { F.IsAlwaysCallable find }
    ensures { Unanswered out.old out.new result }
{
    let (x, list) = cells.split_first()?;
    if head.wholes[0] != list.len() as u64 {
        return None;
    }
    out.text(name);
    out.whole(find(list, *x) as u64);
    out.end();
    Some(())
}

// Kind 20.
pub fn partition_point_le(head: Head, cells: &[f64], out: &mut Output) -> Option<()>
    ensures { Unanswered out.old out.new result }
{
    point(
        b"partition_point_le",
        |t, x| search::partition_point_le(t, x),
        head,
        cells,
        out,
    )
}

// Kind 21.
pub fn partition_point_lt(head: Head, cells: &[f64], out: &mut Output) -> Option<()>
    ensures { Unanswered out.old out.new result }
{
    point(
        b"partition_point_lt",
        |t, x| search::partition_point_lt(t, x),
        head,
        cells,
        out,
    )
}

// The x and the knots of kinds 22, 23 and 24, whole number knots: the knots, then x.
fn located(head: Head, cells: &[f64]) -> Option<(f64, &[f64])>
    ensures { IfSome result (λ r. 12 ≤ length r.1.now) }
{
    let (x, t) = cells.split_last()?;
    if t.len() < 12 || head.wholes[0] != t.len() as u64 {
        return None;
    }
    Some((*x, t))
}

// Kind 22: the span of x.
pub fn span(head: Head, cells: &[f64], out: &mut Output) -> Option<()>
    ensures { Unanswered out.old out.new result }
{
    let (x, t) = located(head, cells)?;
    out.text(b"span");
    out.whole(search::span(t, t.len() - 6, x) as u64);
    out.end();
    Some(())
}

// Kind 23: the six values on the span of x.
pub fn values(head: Head, cells: &[f64], out: &mut Output) -> Option<()>
    ensures { Unanswered out.old out.new result }
{
    let (x, t) = located(head, cells)?;
    let span = search::span(t, t.len() - 6, x);
    if span < 5 || t.len() <= span || t.len() - span <= 5 {
        return None;
    }
    let six = basis::values(t, span, x);
    out.text(b"values");
    out.whole((span - 5) as u64);
    out.cells(&six);
    out.end();
    Some(())
}

// Kind 24, whole numbers knots and span: the 36 coefficients on the span.
pub fn powers(head: Head, cells: &[f64], out: &mut Output) -> Option<()>
    ensures { Unanswered out.old out.new result }
{
    let (x, t) = located(head, cells)?;
    let span = head.wholes[1] as usize;
    if span < 5 || t.len() <= span || t.len() - span <= 5 {
        return None;
    }
    let rows = basis::powers(t, span, x);
    out.text(b"powers");
    out.cells(&rows);
    out.end();
    Some(())
}

// The axes and the count of controls of kinds 25 and 26, whole numbers d and knots.
fn spline_of(head: Head, cells: &[f64]) -> Option<(usize, usize)>
    ensures { IfSome result (λ r. (r.0 ≤ 16) × (6 ≤ r.1) × (r.1 ≤ 4000) × (r.1 + 6 < length cells.now)) }
{
    let d = head.wholes[0];
    let knots = head.wholes[1];
    if 16 < d || knots < 12 || 4006 < knots || cells.len() as u64 <= knots {
        return None;
    }
    Some((d as usize, knots as usize - 6))
}

// Kind 25: x, the knots, and the controls, which lie after one free cell; x is inserted.
pub fn insert(head: Head, cells: &[f64], work: &mut [f64], out: &mut Output) -> Option<()>
    ensures { Unanswered out.old out.new result }
{
    let (d, count) = spline_of(head, cells)?;
    let controls = count + 7;
    let last = controls + (count + 1) * d;
    if work.len() < last {
        return None;
    }
    window::copy(work, &cells[1..controls]);
    window::copy(&mut work[controls..], &cells[controls..]);
    let spline = Spline {
        knots: 0,
        controls,
        count,
        axes: d,
    };
    insertion::insert(work, spline, cells[0]);
    out.text(b"insert");
    out.cells(&work[..last]);
    out.end();
    Some(())
}

// Kind 26: the knots, then the controls; the spline's polynomial.
pub fn polynomial(head: Head, cells: &[f64], work: &mut [f64], out: &mut Output) -> Option<()>
    ensures { Unanswered out.old out.new result }
{
    let (d, count) = spline_of(head, cells)?;
    let controls = count + 6;
    let breaks = controls + count * d;
    let coefficients = breaks + count - 4;
    let wide = 6 * d;
    let spans = count - 5;
    let last = coefficients + spans * wide;
    if work.len() < last {
        return None;
    }
    window::copy(work, cells);
    let spline = Spline {
        knots: 0,
        controls,
        count,
        axes: d,
    };
    let n = segments::polynomial(work, spline, breaks, coefficients);
    if spans < n {
        return None;
    }
    out.text(b"polynomial");
    out.whole(n as u64);
    out.first_cells(&work[breaks..], n + 1);
    out.first_cells(&work[coefficients..], n * wide);
    out.end();
    Some(())
}
