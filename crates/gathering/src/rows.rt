// The rows of some axes, waypoint after waypoint.
ghost use Rattle.std.specs.Prelude.{◌≡◌, ℕ, Float, ◌*◌, ◌+◌, ◌≤◌, ◌<◌, length, get_or, take};
ghost use Rattle.window.specs.Rows.{table};
ghost use Rattle.smoothing.specs.Rows.{gathered, centred};
ghost use Rattle.gathering.specs.Rows.{Below, cell_of, centred_cell};

// The row `axes[a]` of waypoint i, of points of d rows.
fn cell_at(points: &[f64], d: usize, axes: &[usize; 16], i: usize, a: usize) -> f64
    requires { (a < 16) × (i * d + get_or axes.now a 0 < length points.now) }
    ensures { result ≡ cell_of points.now axes.now (i * d) a }
{
    points[i * d + axes[a]]
}

// The same, less that of the first waypoint, over its tolerance.
fn centred_at(
    points: &[f64],
    d: usize,
    axes: &[usize; 16],
    eps: &[f64; 16],
    i: usize,
    a: usize,
) -> f64
    requires { (a < 16) × (i * d + get_or axes.now a 0 < length points.now) }
    ensures { result ≡ centred_cell points.now axes.now eps.now (i * d) a }
{
    let row = axes[a];
    (points[i * d + row] - points[row]) / eps[a]
}

// n rows of k cells, row after row: cell a of row i is what `cell` gives for i and a.
fn put_each<F: Fn(usize, usize) -> f64>(cells: &mut [f64], n: usize, k: usize, cell: F)
    requires size { length cells.old ≡ n * k }
    requires callable { (i a : ℕ) → i < n → a < k → F.pre cell i a }
    ensures { (f : ℕ → ℕ → Float) → ((i a : ℕ) (v : Float) → i < n → a < k → F.post cell i a v → v ≡ f i a)
        → cells.new ≡ table n k f }
{
    for i in 0..n {
        for a in 0..k {
            cells[i * k + a] = cell(i, a);
        }
    }
}

// The rows `axes`, k of them, of n points of d rows, as handed in: waypoint after waypoint.
pub fn put_rows(cells: &mut [f64], points: &[f64], d: usize, n: usize, axes: &[usize; 16], k: usize)
    requires { (k ≤ 16) × (d ≤ 16) × (n ≤ 20000) × (length cells.old ≡ n * k) × (n * d ≤ length points.now) × Below axes.now k d }
    ensures { cells.new ≡ gathered points.now d n (take k axes.now) }
{
    put_each(cells, n, k, |i, a| cell_at(points, d, axes, i, a));
}

// The same rows as `put_rows`, centred at the first waypoint, over their tolerances.
pub fn put_centred(
    cells: &mut [f64],
    points: &[f64],
    d: usize,
    n: usize,
    axes: &[usize; 16],
    k: usize,
    eps: &[f64; 16],
)
    requires { (k ≤ 16) × (d ≤ 16) × (n ≤ 20000) × (length cells.old ≡ n * k) × (n * d ≤ length points.now)
        × Below axes.now k d × (1 ≤ n) }
    ensures { cells.new ≡ centred (gathered points.now d n (take k axes.now))
        (take k eps.now) n k }
{
    put_each(cells, n, k, |i, a| centred_at(points, d, axes, eps, i, a));
}
