// One intersection of a waypoint interval with a segment: document 01, "The certified figure". The six
// powers of curve minus line and their Bernstein coefficients, all in pairs of ends.
ghost use Rattle.std.specs.Prelude.{false, ◌≡◌, ◌-◌, ◌<◌, ℕ};
ghost use Rattle.std.specs.Float.{binary64};
ghost use Rattle.std.specs.Float.Ieee.{round};
ghost use Rattle.window.specs.Cells.{at};
ghost use Rattle.fraction.specs.Binomial.{choose};
ghost use Rattle.fraction.specs.Pair.{point};
ghost use Rattle.figure.specs.Operations.{ends};
ghost use Rattle.figure.specs.Intersection.{bernstein, difference_bernstein, difference_power, line_at_left, line_rise, offset, raised, scale, total};
ghost use Rattle.figure.specs.Figure.{absolute_end, larger};
ghost use Rattle.pairs.specs.Structs.{ends_of};
ghost use Rattle.estimate.specs.Structs.{intersection_of};
ghost use Rattle.certificate.specs.Structs.{Holds, figure_in, pair_at};

use estimate::intersection::Intersection;
use pairs::ends;
use pairs::ends::Ends;

// The larger of two figures; none, where one is none.
pub fn larger(x: Option<f64>, y: Option<f64>) -> Option<f64>
    ensures { figure_in result ≡ larger (figure_in x) (figure_in y) }
{
    Some(ends::higher(x?, y?))
}

// The largest absolute end of a pair.
pub(crate) fn absolute_end(e: Ends) -> Option<f64>
    ensures { figure_in result ≡ absolute_end (ends_of e) }
{
    if e.good {
        Some(ends::largest_end(e))
    } else {
        None
    }
}

// a - b, of two numbers that are read.
fn difference(a: f64, b: f64) -> Ends
    ensures { ends_of result ≡ ends.minus (ends.number a) (ends.number b) }
{
    ends::subtract(ends::finite_ends(a, a), ends::finite_ends(b, b))
}

// "U = (left - a)/(b - a)"
fn offset(x: Intersection) -> Ends
    ensures { ends_of result ≡ offset ends (intersection_of x) }
{
    ends::divide(difference(x.left, x.start), difference(x.end, x.start))
}

// "W = (right - left)/(b - a)"
fn scale(x: Intersection) -> Ends
    ensures { ends_of result ≡ scale ends (intersection_of x) }
{
    ends::divide(difference(x.right, x.left), difference(x.end, x.start))
}

// What power 0 loses: "y_i + ((left - s_i)/L)·D".
fn line_at_left(x: Intersection) -> Ends
    ensures { ends_of result ≡ line_at_left ends (intersection_of x) }
{
    let part = ends::divide(difference(x.left, x.from), difference(x.to, x.from));
    let rise = ends::multiply(part, difference(x.second, x.first));
    ends::add(ends::finite_ends(x.first, x.first), rise)
}

// What power 1 loses: "((right - left)/L)·D".
fn line_rise(x: Intersection) -> Ends
    ensures { ends_of result ≡ line_rise ends (intersection_of x) }
{
    let part = ends::divide(difference(x.right, x.left), difference(x.to, x.from));
    ends::multiply(part, difference(x.second, x.first))
}

// u^0 .. u^5: "Powers multiply up from 1".
fn powers_of(u: Ends) -> [Ends; 6]
    ensures { Holds result (raised ends (ends_of u)) }
{
    let u0 = ends::both(1.0);
    let u1 = ends::multiply(u0, u);
    let u2 = ends::multiply(u1, u);
    let u3 = ends::multiply(u2, u);
    let u4 = ends::multiply(u3, u);
    let u5 = ends::multiply(u4, u);
    [u0, u1, u2, u3, u4, u5]
}

// c·p·u.
fn term(c: f64, p: f64, u: Ends) -> Ends
    ensures { ends_of result ≡ ends.times (ends.times (point c) (ends.number p)) (ends_of u) }
{
    ends::multiply(ends::product(c, p), u)
}

// Power j: the sum of the terms from k = j on, times w, which is w^j. u holds the powers of u, c the
// binomials C(0, j) .. C(5, j): a table of all would be written anew at every reading.
fn power(p: [f64; 6], u: [Ends; 6], c: [f64; 6], w: Ends, j: usize) -> Ends
    requires { (j < 6) × ((k : ℕ) → k < 6 → at c k ≡ round binary64 false (choose k j) 1) }
    ensures { ends_of result ≡ ends.times (total ends j (6 - j) (λ k. ends.times (ends.times (ends.whole (choose k j))
        (ends.number (at p k))) (pair_at u (k - j)))) (ends_of w) }
{
    let mut sum = ends::both(0.0);
    for k in j..6 {
        sum = ends::add(sum, term(c[k], p[k], u[k - j]));
    }
    ends::multiply(sum, w)
}

// The powers of curve minus line.
fn difference_powers(x: Intersection) -> [Ends; 6]
    ensures { Holds result (difference_power ends (intersection_of x)) }
{
    let p = x.coefficients;
    let u = powers_of(offset(x));
    let w = powers_of(scale(x));
    let c0 = [1., 1., 1., 1., 1., 1.];
    let c1 = [0., 1., 2., 3., 4., 5.];
    let c2 = [0., 0., 1., 3., 6., 10.];
    let c3 = [0., 0., 0., 1., 4., 10.];
    let c4 = [0., 0., 0., 0., 1., 5.];
    let c5 = [0., 0., 0., 0., 0., 1.];
    [
        ends::subtract(power(p, u, c0, w[0], 0), line_at_left(x)),
        ends::subtract(power(p, u, c1, w[1], 1), line_rise(x)),
        power(p, u, c2, w[2], 2),
        power(p, u, c3, w[3], 3),
        power(p, u, c4, w[4], 4),
        power(p, u, c5, w[5], 5),
    ]
}

// Bernstein coefficient 0 of power 0. The sums of the others begin with it too: C(k, 0) is 1.
fn first(p: Ends) -> Ends
    ensures { ends_of result ≡ ends.plus (ends.whole 0) (ends.over (ends.times (ends_of p) (ends.whole 1)) (ends.whole 1)) }
{
    let c = ends::multiply_by(p, 1.0);
    ends::add(ends::both(0.0), ends::divide_by(c, 1.0))
}

// Bernstein coefficient k: the sum over j up to k of power j·C(k, j)/C(5, j), from j = 1 on. c holds the
// binomials C(k, 0) .. C(k, 5), d those of 5.
fn bernstein(q: [Ends; 6], c: [f64; 6], d: [f64; 6], first: Ends, k: usize) -> Ends
    requires { (k < 6) × (ends_of first ≡ bernstein ends (pair_at q) 0)
        × ((j : ℕ) → j < 6 → at c j ≡ round binary64 false (choose k j) 1) × ((j : ℕ) → j < 6 → at d j ≡ round binary64 false (choose 5 j) 1) }
    ensures { ends_of result ≡ bernstein ends (pair_at q) k }
{
    let mut sum = first;
    for j in 1..k + 1 {
        let part = ends::multiply_by(q[j], c[j]);
        sum = ends::add(sum, ends::divide_by(part, d[j]));
    }
    sum
}

// The six Bernstein coefficients of curve minus line.
pub(crate) fn bernstein_pairs(x: Intersection) -> [Ends; 6]
    ensures { Holds result (difference_bernstein ends (intersection_of x)) }
{
    let q = difference_powers(x);
    let b = first(q[0]);
    let c1 = [1., 1., 0., 0., 0., 0.];
    let c2 = [1., 2., 1., 0., 0., 0.];
    let c3 = [1., 3., 3., 1., 0., 0.];
    let c4 = [1., 4., 6., 4., 1., 0.];
    let c5 = [1., 5., 10., 10., 5., 1.];
    [
        b,
        bernstein(q, c1, c5, b, 1),
        bernstein(q, c2, c5, b, 2),
        bernstein(q, c3, c5, b, 3),
        bernstein(q, c4, c5, b, 4),
        bernstein(q, c5, c5, b, 5),
    ]
}
