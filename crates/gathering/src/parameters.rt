// The normalised parameters of a request.
ghost use Rattle.std.specs.Prelude.{◌≡◌, ◌*◌, ◌≤◌, length};
ghost use Rattle.window.specs.Cells.{at};
ghost use Rattle.window.specs.Rows.{list_of};
ghost use Rattle.request.specs.declared.parameters.Spacing.TheVariants.{Listed};
ghost use Rattle.request.specs.Parameters.{length_of, normalised_of, parameter_list};

use request::parameters;
use request::parameters::Spacing;

// The parameters of as many waypoints as there are cells: each is made once, from the one before it.
fn put_list(cells: &mut [f64], spacing: Spacing, list: &[f64], points: &[f64], d: usize)
    requires { (2 ≤ length cells.old) × (length cells.old ≤ 20000) × (length cells.old * d ≤ length points.now)
        × (spacing ≡ Listed → length cells.old ≤ length list.now) }
    ensures { cells.new ≡ list_of (length cells.old)
        (at (parameter_list spacing list.now points.now d (length cells.old))) }
{
    let n = cells.len();
    let mut current = parameters::first(spacing, list, n);
    cells[0] = current;
    for i in 0..n - 1 {
        current = parameters::following(spacing, list, points, d, n, i, current);
        cells[i + 1] = current;
    }
}

// Parameters normalised in place. The answer is the last of them less the first.
fn normalise(cells: &mut [f64]) -> f64
    requires { 2 ≤ length cells.old }
    ensures value { result ≡ length_of cells.old (length cells.old) }
    ensures cells_after { cells.new ≡ list_of (length cells.old)
        (normalised_of cells.old (length cells.old)) }
{
    let n = cells.len();
    let start = cells[0];
    let range = cells[n - 1] - start;
    for x in cells.iter_mut() {
        *x = (*x - start) / range;
    }
    range
}

// The normalised parameters of as many waypoints as there are cells. The answer is the last parameter less
// the first.
pub fn put_parameters(
    cells: &mut [f64],
    spacing: Spacing,
    list: &[f64],
    points: &[f64],
    d: usize,
) -> f64
    requires { (2 ≤ length cells.old) × (length cells.old ≤ 20000) × (length cells.old * d ≤ length points.now)
        × (spacing ≡ Listed → length cells.old ≤ length list.now) }
    ensures value { result ≡ length_of (parameter_list spacing list.now points.now d (length cells.old))
        (length cells.old) }
    ensures cells_after { cells.new ≡ list_of (length cells.old)
        (normalised_of (parameter_list spacing list.now points.now d (length cells.old))
        (length cells.old)) }
{
    put_list(cells, spacing, list, points, d);
    normalise(cells)
}
