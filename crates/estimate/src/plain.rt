// The formula of the certified figure in plain floats: document 01, "The certified figure", each operation
// rounded to nearest, in the same order. Six numbers are the powers of a polynomial, or its Bernstein
// coefficients.
ghost use Rattle.std.specs.Prelude.{ℕ, ◌≡◌, Float};
ghost use Rattle.window.specs.Cells.{at};
ghost use Rattle.figure.specs.Intersection as formula;
ghost use Rattle.estimate.specs.Plain.{SixAre, larger_size, largest_size, plain};
ghost use Rattle.estimate.specs.Structs.{intersection_of};

use crate::intersection::Intersection;
use pairs::ends;

// The powers of the curve: "(sum over k from j to 5 of C(k,j)·p_k·U^(k-j))·W^j".
fn curve_powers(p: [f64; 6], u: f64, w: f64) -> [f64; 6]
    ensures { SixAre (formula.power plain (at p) u w) result }
{
    let p0 = p[0];
    let p1 = p[1];
    let p2 = p[2];
    let p3 = p[3];
    let p4 = p[4];
    let p5 = p[5];
    let u1 = 1.0 * u;
    let u2 = u1 * u;
    let u3 = u2 * u;
    let u4 = u3 * u;
    let u5 = u4 * u;
    let w1 = 1.0 * w;
    let w2 = w1 * w;
    let w3 = w2 * w;
    let w4 = w3 * w;
    let w5 = w4 * w;
    let zero = 0.0
        + 1.0 * p0 * 1.0
        + 1.0 * p1 * u1
        + 1.0 * p2 * u2
        + 1.0 * p3 * u3
        + 1.0 * p4 * u4
        + 1.0 * p5 * u5;
    let one = 0.0 + 1.0 * p1 * 1.0 + 2.0 * p2 * u1 + 3.0 * p3 * u2 + 4.0 * p4 * u3 + 5.0 * p5 * u4;
    let two = 0.0 + 1.0 * p2 * 1.0 + 3.0 * p3 * u1 + 6.0 * p4 * u2 + 10.0 * p5 * u3;
    let three = 0.0 + 1.0 * p3 * 1.0 + 4.0 * p4 * u1 + 10.0 * p5 * u2;
    let four = 0.0 + 1.0 * p4 * 1.0 + 5.0 * p5 * u1;
    let five = 0.0 + 1.0 * p5 * 1.0;
    [
        zero * 1.0,
        one * w1,
        two * w2,
        three * w3,
        four * w4,
        five * w5,
    ]
}

// The powers of curve minus line.
fn difference_powers(x: Intersection) -> [f64; 6]
    ensures { SixAre (formula.difference_power plain (intersection_of x)) result }
{
    let p = x.coefficients;
    let segment = x.end - x.start;
    let interval = x.to - x.from;
    let part = x.right - x.left;
    let q = curve_powers(p, (x.left - x.start) / segment, part / segment);
    let d = x.second - x.first;
    let left = x.first + (x.left - x.from) / interval * d;
    let rise = part / interval * d;
    [q[0] - left, q[1] - rise, q[2], q[3], q[4], q[5]]
}

// The Bernstein coefficients: "sum over j ≤ k of power j·C(k,j)/C(5,j)".
fn bernstein(q: [f64; 6]) -> [f64; 6]
    ensures { (f : ℕ → Float) → SixAre f q → SixAre (formula.bernstein plain f) result }
{
    let b = 0.0 + q[0] * 1.0 / 1.0;
    let one = b + q[1] * 1.0 / 5.0;
    let two = b + q[1] * 2.0 / 5.0 + q[2] * 1.0 / 10.0;
    let three = b + q[1] * 3.0 / 5.0 + q[2] * 3.0 / 10.0 + q[3] * 1.0 / 10.0;
    let four = b + q[1] * 4.0 / 5.0 + q[2] * 6.0 / 10.0 + q[3] * 4.0 / 10.0 + q[4] * 1.0 / 5.0;
    let five = b
        + q[1] * 5.0 / 5.0
        + q[2] * 10.0 / 10.0
        + q[3] * 10.0 / 10.0
        + q[4] * 5.0 / 5.0
        + q[5] * 1.0 / 1.0;
    [b, one, two, three, four, five]
}

// The Bernstein coefficients of curve minus line.
pub(crate) fn coefficients(x: Intersection) -> [f64; 6]
    ensures { SixAre (formula.difference_bernstein plain (intersection_of x)) result }
{
    bernstein(difference_powers(x))
}

// The largest of x, y and -y.
pub(crate) fn larger(x: f64, y: f64) -> f64
    ensures { result ≡ larger_size x y }
{
    ends::higher(x, ends::higher(y, -y))
}

// The largest in size.
pub(crate) fn largest(b: [f64; 6]) -> f64
    ensures { result ≡ largest_size b }
{
    let first = ends::higher(b[0], -b[0]);
    let second = larger(first, b[1]);
    let third = larger(second, b[2]);
    let fourth = larger(third, b[3]);
    let fifth = larger(fourth, b[4]);
    larger(fifth, b[5])
}
