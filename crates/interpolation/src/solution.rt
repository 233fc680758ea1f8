// The solution of the system, and its polynomial.
ghost use Rattle.std.specs.Prelude.{◌≡◌, ◌+◌, ◌*◌, ◌<◌, length};
ghost use Rattle.arith.specs.Operations.{floats};
ghost use Rattle.bspline.specs.Segments.{polynomial_of};
ghost use Rattle.normal.specs.Solve.{number_of, solve_of};
ghost use Rattle.fitting_rows.specs.Arrays.{arrays_at};
ghost use Rattle.interpolation.specs.Memory.{NodesLaid, Roomy, system_in, place_of, polynomial_in};

use crate::Nodes;
use bspline::Spline;
use fitting_rows::Place;
use normal::Unsolved;

// Solves the system in its place.
pub fn solve(work: &mut [f64], q: Place) -> Result<(), Unsolved>
    requires { NodesLaid q (length work.old) }
    ensures value { number_of result ≡ (solve_of q.count q.axes (system_in q work.old)).number }
    ensures work_unchanged { arrays_at q work.new ≡ arrays_at q work.old }
    ensures work_after { system_in q work.new ≡ (solve_of q.count q.axes (system_in q work.old)).system }
{
    let d = q.axes;
    let m = q.count;
    let g = q.system;
    let e = g + (6 * m + m * d + m);
    normal::solve(&mut work[g..e], m, d)
}

// The polynomial of the spline whose controls are the system's right sides. Gives the number of segments.
pub fn put_polynomial(work: &mut [f64], p: Nodes) -> usize
    requires { Roomy p (length work.old) }
    ensures work_after { polynomial_in p result work.new
        ≡ polynomial_of floats (arrays_at (place_of p) work.old).t (system_in (place_of p) work.old).right p.axes
        (p.samples + 4) }
    ensures upper_bound { result < p.samples }
{
    let e = p.room;
    let d = p.axes;
    let b = e * d;
    let m = p.samples + 4;
    let s = Spline {
        knots: e + b,
        controls: 2 * e + b + 6 * m,
        count: m,
        axes: d,
    };
    bspline::segments::polynomial(work, s, 9 * e + 2 * b, 10 * e + 2 * b)
}
