// The other axes: a quintic spline through every waypoint, the source's `interpolate`, over one lent slice.
#![tactic(auto)]

ghost use Rattle.std.specs.Prelude.{◌≡◌, ◌<◌, length, IfOk};
ghost use Rattle.smoothing.specs.Interpolate.{interpolate_of};
ghost use Rattle.interpolation.specs.Memory.{Roomy, parameters_in, points_in, interpolated_in};

use fitting_rows::Place;
use normal::Unsolved;

mod rows; // rows.rt: the rows of waypoints and of ends
mod assembly; // assembly.rt: the system with all rows
mod solution; // solution.rt: the system solved, and the polynomial of the solution

// Where the arrays lie in a lent slice, with E = room and d = axes: parameters from 0 on (samples of them), points from
// E on (samples rows of d), both given; then the knots E, the band system of samples + 4 controls 7 E + E d, breaks E,
// coefficients 6 E d: 10 E + 8 E d cells in all.
#[derive(Clone, Copy)]
pub struct Nodes {
    pub samples: usize,
    pub axes: usize,
    pub room: usize,
}

// The source's `interpolate`: 9, 10, 11, or how many segments there are.
pub fn interpolate(work: &mut [f64], p: Nodes) -> Result<usize, Unsolved>
    requires { Roomy p (length work.old) }
    ensures work_after { interpolated_in p result work.new
        ≡ interpolate_of p.samples p.axes (parameters_in p work.old) (points_in p work.old) }
    ensures segments_lt_samples { IfOk result (λ segments. segments < p.samples) }
{
    let e = p.room;
    let d = p.axes;
    let b = e * d;
    let q = Place {
        knots: e + b,
        controls: 10 * e + 2 * b,
        count: p.samples + 4,
        axes: d,
        parameters: 0,
        points: e,
        samples: p.samples,
        system: 2 * e + b,
    };
    assembly::assemble(work, q);
    solution::solve(work, q)?;
    Ok(solution::put_polynomial(work, p))
}
