// The other axes.
ghost use Rattle.std.specs.Prelude.{◌≡◌, ◌+◌, ◌*◌, ◌≤◌, ◌<◌, length, IfOk};
ghost use Rattle.request.specs.declared.parameters.Spacing.TheVariants.{Listed};
ghost use Rattle.request.specs.Parameters.{parameter_list};
ghost use Rattle.gathering.specs.Rows.{Below};
ghost use Rattle.work_slice.specs.Rows.{other_answer, other_from};

use checks::Request;
use checks::choices::AxisList;
use interpolation::Nodes;
use normal::Unsolved;

// The other axes, those of `others`, in a part of the work slice that is theirs: 9, 10, 11, or how many
// segments they have.
pub fn interpolate_others(
    part: &mut [f64],
    room: usize,
    n: usize,
    r: &Request,
    others: &AxisList,
) -> Result<usize, Unsolved>
    requires j_bound { (others.now.count ≤ 16) × (2 ≤ n) × (n ≤ 20000) × (n + 16 ≤ room) × (room ≤ 20016)
        × (10 * room + 8 * (room * others.now.count) ≤ length part.old) × (r.now.d ≤ 16) × (n * r.now.d ≤ length r.now.points.now)
        × Below others.now.axes others.now.count r.now.d }
    requires n_in_bounds { r.now.spacing ≡ Listed → n ≤ length r.now.parameters.now }
    ensures part_after { other_answer n others.now.count room result part.new
        ≡ other_from n others.now.count
        (parameter_list r.now.spacing r.now.parameters.now r.now.points.now r.now.d n) r.now.points.now r.now.d
        others.now.axes }
    ensures segments_lt_n { IfOk result (λ segments. segments < n) }
{
    let j = others.count;
    if j == 0 {
        return Ok(0);
    }
    let y_end = room + n * j;
    gathering::put_parameters(&mut part[0..n], r.spacing, r.parameters, r.points, r.d);
    gathering::put_rows(&mut part[room..y_end], r.points, r.d, n, &others.axes, j);
    let p = Nodes {
        samples: n,
        axes: j,
        room,
    };
    interpolation::interpolate(part, p)
}
