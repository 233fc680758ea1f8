// The rows of sparse spans: each is split at the samples inside it, and each piece has six Gauss
// nodes.
ghost use Rattle.std.specs.Prelude.{◌≡◌, ◌+◌, ◌-◌, ◌*◌, ◌<◌, ◌≤◌, length};
ghost use Rattle.fitting_rows.specs.Arrays.{ArraysWithin, arrays, arrays_at};
ghost use Rattle.fitting_rows.specs.Pieces.{waypoint_interval, line_of, row_at, node_row_of, passed_over, piece_start, piece_end, mesh_span};

use crate::Place;

// The nodes of a piece, from 0 to 1, and their weights.
const GX: [f64; 6] = [
    0.033765242898423975,
    0.16939530676686776,
    0.3806904069584015,
    0.6193095930415985,
    0.8306046932331322,
    0.966234757101576,
];

const GW: [f64; 6] = [
    0.08566224618958517,
    0.1803807865240693,
    0.2339569672863455,
    0.2339569672863455,
    0.1803807865240693,
    0.08566224618958517,
];

// The interval between two of the n samples in which x lies.
#[tactic(auto, unfolding(crate::specs::Pieces::waypoint_interval))]
fn interval(s: &[f64], n: usize, x: f64) -> usize
    requires { 2 ≤ n }
    ensures { result ≡ waypoint_interval s.now n x }
{
    bspline::search::partition_point_le(s, x)
        .saturating_sub(1)
        .min(n - 2)
}

// The line between points i and i + 1, at x: d cells, and 0 up to 16.
#[tactic(auto, using(crate::proofs::Turns::loops), unfolding(crate::specs::Pieces::line_of, crate::specs::Pieces::line_turn))]
fn line(s: &[f64], y: &[f64], d: usize, i: usize, x: f64) -> [f64; 16]
    requires { (d ≤ 16) × (i + 1 < length s.now) × ((i + 1) * d + d ≤ length y.now) }
    ensures { result ≡ line_of s.now y.now d i x }
{
    let f = (x - s[i]) / (s[i + 1] - s[i]);
    let mut cells = [0.0; 16];
    for axis in 0..d {
        cells[axis] = y[i * d + axis] + f * (y[(i + 1) * d + axis] - y[i * d + axis]);
    }
    cells
}

// The row at x, for m controls of d axes and n samples.
fn row_at(
    t: &[f64],
    c: &[f64],
    s: &[f64],
    y: &[f64],
    m: usize,
    d: usize,
    n: usize,
    x: f64,
    weight: f64,
) -> normal::Row
    requires le_m { (6 ≤ m) × (m + 6 ≤ length t.now) × (m * d ≤ length c.now) }
    requires d_bound { (d ≤ 16) × (2 ≤ n) × (n ≤ length s.now) × (n * d ≤ length y.now) }
    ensures { result ≡ row_at (arrays t.now c.now m d s.now y.now n) x weight }
{
    let i = interval(s, n, x);
    let target = line(s, y, d, i, x);
    let span = bspline::search::span(t, m, x);
    let basis = bspline::basis::values(t, span, x);
    normal::fitting_row(c, d, span - 5, basis, weight, target)
}

// The row of node r of the piece that begins at `from` and is h wide.
pub fn node_row(cells: &[f64], p: Place, from: f64, h: f64, r: usize) -> normal::Row
    requires { ArraysWithin p (length cells.now) × (r < 6) }
    ensures { result ≡ node_row_of (arrays_at p cells.now) from h r }
{
    let x = from + GX[r] * h;
    let weight = h * GW[r];
    let m = p.count;
    let d = p.axes;
    let n = p.samples;
    let t = p.knots;
    let t_end = t + (m + 6);
    let c = p.controls;
    let c_end = c + m * d;
    let s = p.parameters;
    let s_end = s + n;
    let y = p.points;
    let y_end = y + n * d;
    row_at(
        &cells[t..t_end],
        &cells[c..c_end],
        &cells[s..s_end],
        &cells[y..y_end],
        m,
        d,
        n,
        x,
        weight,
    )
}

// Whether the span is passed over, for the window from lo to hi. Its density is asked last.
#[tactic(auto, unfolding(crate::specs::Pieces::passed_over))]
fn passes_over(t: &[f64], s: &[f64], lo: f64, hi: f64, span: usize) -> bool
    requires { span + 1 < length t.now }
    ensures { result ≡ passed_over t.now s.now lo hi span }
{
    let left = t[span];
    let right = t[span + 1];
    right <= left || hi <= left || right <= lo || crate::samples::is_dense(t, s, span)
}

// The same for the arrays at p.
pub fn is_passed_over(cells: &[f64], p: Place, lo: f64, hi: f64, span: usize) -> bool
    requires { ArraysWithin p (length cells.now) × (span < p.count) }
    ensures { result ≡ passed_over (arrays_at p cells.now).t (arrays_at p cells.now).s lo hi span }
{
    let t = p.knots;
    let t_end = t + (p.count + 6);
    let s = p.parameters;
    let s_end = s + p.samples;
    passes_over(&cells[t..t_end], &cells[s..s_end], lo, hi, span)
}

// The mesh of a span: its left end, the samples from `begin` up to `end`, its right end.
#[derive(Clone, Copy)]
pub struct Mesh {
    pub left: f64,
    pub right: f64,
    pub begin: usize,
    pub end: usize,
}

// The mesh of the span.
pub fn mesh_at(cells: &[f64], p: Place, span: usize) -> Mesh
    requires { ArraysWithin p (length cells.now) × (span < p.count) }
    ensures { result ≡ mesh_span (arrays_at p cells.now) span }
{
    let t = p.knots;
    let s = p.parameters;
    let s_end = s + p.samples;
    let left = cells[t + span];
    let right = cells[t + (span + 1)];
    let begin = bspline::search::partition_point_le(&cells[s..s_end], left);
    let end = bspline::search::partition_point_lt(&cells[s..s_end], right);
    Mesh {
        left,
        right,
        begin,
        end,
    }
}

// Where piece j of the mesh begins, for samples s.
#[tactic(auto, unfolding(crate::specs::Pieces::piece_start))]
fn start_of(s: &[f64], mesh: Mesh, j: usize) -> f64
    requires j_in_bounds { j ≤ length s.now }
    requires begin_le_j { mesh.begin ≤ j }
    ensures { result ≡ piece_start s.now mesh.left mesh.begin j }
{
    if j == mesh.begin { mesh.left } else { s[j - 1] }
}

// Where it ends.
#[tactic(auto, unfolding(crate::specs::Pieces::piece_end))]
fn end_of(s: &[f64], mesh: Mesh, j: usize) -> f64
    requires end_in_bounds { mesh.end ≤ length s.now }
    requires j_le_end { j ≤ mesh.end }
    ensures { result ≡ piece_end s.now mesh.right mesh.end j }
{
    if j == mesh.end { mesh.right } else { s[j] }
}

// From where to where a piece goes.
#[derive(Clone, Copy)]
pub struct Piece {
    pub from: f64,
    pub to: f64,
}

// Piece j of the mesh.
pub fn piece_at(cells: &[f64], p: Place, mesh: Mesh, j: usize) -> Piece
    requires { ArraysWithin p (length cells.now) × (mesh.begin ≤ j) × (j ≤ mesh.end) × (mesh.end ≤ p.samples) }
    ensures from_value { result.from ≡ piece_start (arrays_at p cells.now).s mesh.left mesh.begin j }
    ensures to_value { result.to ≡ piece_end (arrays_at p cells.now).s mesh.right mesh.end j }
{
    let s = p.parameters;
    let s_end = s + p.samples;
    let from = start_of(&cells[s..s_end], mesh, j);
    let to = end_of(&cells[s..s_end], mesh, j);
    Piece { from, to }
}
