// The knots of a round, inserted one after the other, and the polynomial of the spline with them.
ghost use Rattle.std.specs.Prelude.{◌≡◌, ◌+◌, ◌≤◌, ◌<◌, length, OnOk};
ghost use Rattle.window.specs.Cells.{at};
ghost use Rattle.smoothing.specs.Refusal.{answered};
ghost use Rattle.smoothing.specs.State.{polynomial_in};
ghost use Rattle.smoothing.specs.Round.{outside, insert_of, insert_all};
ghost use Rattle.refinement.specs.Memory.{Roomy, Wide, memory_at, spline_at, locations_at, sized, with_polynomial};
ghost use Rattle.refinement.specs.Kept.{Beside};

use crate::plan::Plan;
use smoothing::Refusal;

// Whether x does not lie strictly inside its span: `x <= b.t[span] || x >= b.t[span + 1]`.
fn outside_at(work: &[f64], p: Plan, x: f64) -> bool
    requires { Roomy p (length work.now) }
    ensures { result ≡ outside (spline_at p work.now) x }
{
    let t = crate::plan::knots(work, p);
    let span = bspline::search::span(t, p.count, x);
    if x <= t[span] {
        return true;
    }
    t[span + 1] <= x
}

// `b.insert(x)`: one knot more.
fn insert_one(work: &mut [f64], p: Plan, x: f64)
    requires { Roomy p (length work.old) × (p.count + 8 ≤ p.room) }
    ensures work_after { spline_at (sized p (p.count + 1)) work.new ≡ insert_of p.axes x (spline_at p work.old) }
    ensures beside { Beside (memory_at p work.old) (memory_at (sized p (p.count + 1)) work.new) }
{
    let s = crate::plan::spline_of(p);
    bspline::insertion::insert(work, s, x);
}

// Location i.
fn location_at(work: &[f64], p: Plan, i: usize) -> f64
    requires { Roomy p (length work.now) × (i < p.room) }
    ensures { result ≡ at (memory_at p work.now).locations i }
{
    work[3 * p.room + 3 * (p.room * p.axes) + i]
}

// `for &x in &locations`, of which there are `count`: 16 where one does not lie strictly inside its span.
pub fn insert_all(work: &mut [f64], p: Plan, count: usize) -> Result<(), Refusal>
    requires { Roomy p (length work.old) × (p.count + count + 7 ≤ p.room) }
    ensures work_after { answered result (spline_at (sized p (p.count + count)) work.new)
        ≡ insert_all p.axes (locations_at p count work.old) (spline_at p work.old) }
    ensures beside { OnOk result (Beside (memory_at p work.old) (memory_at (sized p (p.count + count)) work.new)) }
{
    for i in 0..count {
        let q = Plan {
            count: p.count + i,
            ..p
        };
        let x = location_at(work, q, i);
        if outside_at(work, q, x) {
            return Err(Refusal::BadMidpoint);
        }
        insert_one(work, q, x);
    }
    Ok(())
}

// `b.polynomial()`: that of the whole spline.
pub fn rebuild(work: &mut [f64], p: Plan)
    requires { Roomy p (length work.old) × Wide (memory_at p work.old).t p.count }
    ensures { memory_at p work.new
        ≡ with_polynomial (polynomial_in p.axes (spline_at p work.old)) (memory_at p work.old) }
{
    let s = crate::plan::spline_of(p);
    let b = p.room * p.axes;
    bspline::segments::polynomial(work, s, 13 * p.room + 4 * b, 14 * p.room + 4 * b);
}
