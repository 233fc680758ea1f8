// The figure of an intersection with a depth: document 02, request 8, "Halving a stubborn interval". Its
// six Bernstein coefficients are split into two halves by de Casteljau's midpoints, and each half is
// treated with one less depth.
ghost use Rattle.std.specs.Prelude.{◌≡◌};
ghost use Rattle.figure.specs.Intersection.{difference_bernstein};
ghost use Rattle.figure.specs.Operations.{ends};
ghost use Rattle.figure.specs.Halving.{left_half, midpoint, right_half};
ghost use Rattle.figure.specs.Figure.{halved_figure, intersection_figure, larger, six_figure, smaller};
ghost use Rattle.pairs.specs.Structs.{ends_of};
ghost use Rattle.estimate.specs.Structs.{intersection_of};
ghost use Rattle.certificate.specs.Structs.{Holds, figure_in, pair_at};

use crate::{intersection, quick};
use estimate::comparison;
use estimate::intersection::Intersection;
use pairs::ends;
use pairs::ends::Ends;

// Both halves.
#[derive(Clone, Copy)]
struct Halves {
    left: [Ends; 6],
    right: [Ends; 6],
}

// "add, then divide by 2"
fn midpoint(x: Ends, y: Ends) -> Ends
    ensures { ends_of result ≡ midpoint ends (ends_of x) (ends_of y) }
{
    ends::divide_by(ends::add(x, y), 2.0)
}

// The edges of de Casteljau's triangle.
fn halve(e: [Ends; 6]) -> Halves
    ensures { Holds result.left (left_half ends (pair_at e))
        × Holds result.right (right_half ends (pair_at e)) }
{
    let p01 = midpoint(e[0], e[1]);
    let p12 = midpoint(e[1], e[2]);
    let p23 = midpoint(e[2], e[3]);
    let p34 = midpoint(e[3], e[4]);
    let p45 = midpoint(e[4], e[5]);
    let p02 = midpoint(p01, p12);
    let p13 = midpoint(p12, p23);
    let p24 = midpoint(p23, p34);
    let p35 = midpoint(p34, p45);
    let p03 = midpoint(p02, p13);
    let p14 = midpoint(p13, p24);
    let p25 = midpoint(p24, p35);
    let p04 = midpoint(p03, p14);
    let p15 = midpoint(p14, p25);
    let p05 = midpoint(p04, p15);
    Halves {
        left: [e[0], p01, p02, p03, p04, p05],
        right: [p05, p15, p25, p35, p45, e[5]],
    }
}

// The largest absolute end over the six.
fn six_figure(b: [Ends; 6]) -> Option<f64>
    ensures { figure_in result ≡ six_figure (pair_at b) }
{
    let mut f = Some(0.0);
    for k in 0..6 {
        f = intersection::larger(f, intersection::absolute_end(b[k]));
    }
    f
}

// The smaller of its own and that of its halves; its own, where they have none.
fn smaller(own: Option<f64>, halves: Option<f64>) -> Option<f64>
    ensures { figure_in result ≡ smaller (figure_in own) (figure_in halves) }
{
    let x = own?;
    match halves {
        Some(y) => Some(ends::lower(x, y)),
        None => own,
    }
}

// Its own figure at depth 0; above, with those of its halves, one less deep.
fn halved_figure(depth: usize, b: [Ends; 6]) -> Option<f64>
    ensures { figure_in result ≡ halved_figure depth (pair_at b) }
{
    let own = six_figure(b);
    if depth == 0 {
        return own;
    }
    let h = halve(b);
    let left = h.left;
    let right = h.right;
    let f = halved_figure(depth - 1, left);
    let g = halved_figure(depth - 1, right);
    smaller(own, intersection::larger(f, g))
}

// The figure of an intersection at depth 0: in spreads, or in pairs of ends where that says nothing.
fn own_figure(x: Intersection) -> Option<f64>
    ensures { figure_in result ≡ six_figure (difference_bernstein ends (intersection_of x)) }
{
    match quick::quick_figure(x) {
        Some(most) => Some(most),
        None => six_figure(intersection::bernstein_pairs(x)),
    }
}

// The figure with a depth, from that at depth 0.
fn deep_figure(depth: usize, x: Intersection, own: Option<f64>) -> Option<f64>
    requires { figure_in own ≡ six_figure (difference_bernstein ends (intersection_of x)) }
    ensures { figure_in result ≡ intersection_figure depth (intersection_of x) }
{
    if depth == 0 {
        return own;
    }
    halved_figure(depth, intersection::bernstein_pairs(x))
}

// The largest so far with the figure of an intersection, computed. Where its own is not above the largest so
// far, no depth makes a difference, and it is not halved.
fn with_computed(depth: usize, x: Intersection, so_far: Option<f64>) -> Option<f64>
    ensures { figure_in result ≡ larger (figure_in so_far) (intersection_figure depth (intersection_of x)) }
{
    let own = own_figure(x);
    if so_far? < own? {
        return intersection::larger(so_far, deep_figure(depth, x, own));
    }
    so_far
}

// The same. Where an estimate tells that the figure is not above the largest so far, it is not computed.
pub(crate) fn with_figure(depth: usize, x: Intersection, so_far: Option<f64>) -> Option<f64>
    ensures { figure_in result ≡ larger (figure_in so_far) (intersection_figure depth (intersection_of x)) }
{
    if comparison::not_above(x, so_far?) {
        return so_far;
    }
    with_computed(depth, x, so_far)
}
