// The rows of a window, added to its system. The system lies behind the arrays, in the same slice.
ghost use Rattle.std.specs.Prelude.{◌≡◌, ◌+◌, ◌-◌, ◌*◌, ◌≤◌, ◌<◌, length};
ghost use Rattle.std.specs.Float.Ieee as ieee;
ghost use Rattle.fit.specs.Region.{Laid, before, arrays_of, system_in};
ghost use Rattle.fitting_rows.specs.Samples.{sample_row_of};
ghost use Rattle.fitting_rows.specs.Pieces.{node_row_of};
ghost use Rattle.fitting_rows.specs.Penalty.{penalty_row_of};
ghost use Rattle.fit.specs.Assembly.{low, high, added, assembled, samples_of, piece_of, mesh_turn, mesh_of, sparse_turn, sparse_of, nodes_of, penalty_turn, penalties_of};

use fitting_rows::pieces::Mesh;
use fitting_rows::{Place, pieces, samples};

// The window [a, z) of the controls, and where the arrays lie.
#[derive(Clone, Copy)]
pub struct Window {
    pub place: Place,
    pub a: usize,
    pub z: usize,
}

// Adds a row to the window's system.
fn add_row(work: &mut [f64], w: Window, row: normal::Row)
    requires { Laid w (length work.old) × (row.start < w.place.count) }
    ensures work_unchanged { before w.place work.new ≡ before w.place work.old }
    ensures work_after { system_in w work.new ≡ added (arrays_of w work.old) w.a w.z row
        (system_in w work.old) }
{
    let g = w.place.system;
    let d = w.place.axes;
    let n = w.z - w.a;
    let e = g + (6 * n + n * d + n);
    normal::add(&mut work[g..e], w.a, n, d, row);
}

// Adds the row of sample i, which lies in the span.
fn add_sample(work: &mut [f64], w: Window, i: usize, span: usize)
    requires { Laid w (length work.old) × (i < w.place.samples) × (5 ≤ span) × (span < w.place.count) }
    ensures work_unchanged { before w.place work.new ≡ before w.place work.old }
    ensures work_after { system_in w work.new ≡ added (arrays_of w work.old) w.a w.z
        (sample_row_of (arrays_of w work.old) i span) (system_in w work.old) }
{
    let g = w.place.system;
    let row = samples::sample_row_at(&work[0..g], w.place, i, span);
    add_row(work, w, row);
}

// Adds the rows of the samples from `first` up to `last` that lie in dense spans, and counts them.
pub fn add_samples(work: &mut [f64], w: Window, first: usize, last: usize) -> usize
    requires { Laid w (length work.old) × (last ≤ w.place.samples) }
    ensures work_unchanged { before w.place work.new ≡ before w.place work.old }
    ensures work_after { assembled result (system_in w work.new)
        ≡ samples_of (arrays_of w work.old) w.a w.z first last (assembled 0 (system_in w work.old)) }
    ensures upper_bound { result ≤ w.place.samples }
{
    let g = w.place.system;
    let mut seen = samples::first_density(&work[0..g], w.place);
    let mut rows = 0;
    for i in first..last {
        seen = samples::look(&work[0..g], w.place, i, seen);
        if seen.dense {
            add_sample(work, w, i, seen.span);
            rows += 1;
        }
    }
    rows
}

// Adds the row of node r of the piece that begins at `from` and is h wide.
fn add_node(work: &mut [f64], w: Window, from: f64, h: f64, r: usize)
    requires { Laid w (length work.old) × (r < 6) }
    ensures work_unchanged { before w.place work.new ≡ before w.place work.old }
    ensures work_after { system_in w work.new ≡ added (arrays_of w work.old) w.a w.z
        (node_row_of (arrays_of w work.old) from h r) (system_in w work.old) }
{
    let g = w.place.system;
    let row = pieces::node_row(&work[0..g], w.place, from, h, r);
    add_row(work, w, row);
}

// Adds the six rows of a piece to those counted.
fn add_piece(work: &mut [f64], w: Window, from: f64, to: f64, rows: usize) -> usize
    requires { Laid w (length work.old) × (rows ≤ 0xffff_ffff_ffff) }
    ensures work_unchanged { before w.place work.new ≡ before w.place work.old }
    ensures work_after { assembled result (system_in w work.new)
        ≡ piece_of (arrays_of w work.old) w.a w.z from to (assembled rows (system_in w work.old)) }
    ensures value { result ≡ rows + 6 }
{
    let h = to - from;
    for r in 0..6 {
        add_node(work, w, from, h, r);
    }
    rows + 6
}

// Adds the rows of piece j of the mesh.
fn add_mesh_piece(work: &mut [f64], w: Window, mesh: Mesh, j: usize, rows: usize) -> usize
    requires { Laid w (length work.old) × (mesh.begin ≤ j) × (j ≤ mesh.end) × (mesh.end ≤ w.place.samples)
        × (rows ≤ 0xffff_ffff_ffff) }
    ensures work_unchanged { before w.place work.new ≡ before w.place work.old }
    ensures work_after { assembled result (system_in w work.new)
        ≡ mesh_turn (arrays_of w work.old) w.a w.z mesh j (assembled rows (system_in w work.old)) }
    ensures value { result ≡ rows + 6 }
{
    let g = w.place.system;
    let piece = pieces::piece_at(&work[0..g], w.place, mesh, j);
    add_piece(work, w, piece.from, piece.to, rows)
}

// Adds the rows of all pieces of the mesh.
fn add_mesh(work: &mut [f64], w: Window, mesh: Mesh, rows: usize) -> usize
    requires { Laid w (length work.old) × (mesh.end ≤ w.place.samples) × (rows ≤ 0xffff_0000_0000) }
    ensures work_unchanged { before w.place work.new ≡ before w.place work.old }
    ensures work_after { assembled result (system_in w work.new)
        ≡ mesh_of (arrays_of w work.old) w.a w.z mesh (assembled rows (system_in w work.old)) }
    ensures upper_bound { result ≤ rows + 6 * (w.place.samples + 1) }
{
    let mut count = rows;
    for j in mesh.begin..mesh.end + 1 {
        count = add_mesh_piece(work, w, mesh, j, count);
    }
    count
}

// Adds the rows of a span, unless it is passed over.
fn add_span(work: &mut [f64], w: Window, lo: f64, hi: f64, span: usize, rows: usize) -> usize
    requires window_laid { Laid w (length work.old) × (span < w.place.count) × (rows ≤ 0xffff_0000_0000) }
    requires lo_value { (lo ≡ low (arrays_of w work.old) w.a w.z) × (hi ≡ high (arrays_of w work.old) w.a w.z) }
    ensures work_unchanged { before w.place work.new ≡ before w.place work.old }
    ensures work_after { assembled result (system_in w work.new)
        ≡ sparse_turn (arrays_of w work.old) w.a w.z span (assembled rows (system_in w work.old)) }
    ensures upper_bound { result ≤ rows + 6 * (w.place.samples + 1) }
{
    let g = w.place.system;
    if pieces::is_passed_over(&work[0..g], w.place, lo, hi, span) {
        return rows;
    }
    let mesh = pieces::mesh_at(&work[0..g], w.place, span);
    add_mesh(work, w, mesh, rows)
}

// Adds the rows of all sparse spans that meet the window.
pub fn add_sparse(work: &mut [f64], w: Window, lo: f64, hi: f64, rows: usize) -> usize
    requires window_laid { Laid w (length work.old) × (rows ≤ 65536) }
    requires lo_value { (lo ≡ low (arrays_of w work.old) w.a w.z) × (hi ≡ high (arrays_of w work.old) w.a w.z) }
    ensures work_unchanged { before w.place work.new ≡ before w.place work.old }
    ensures work_after { assembled result (system_in w work.new)
        ≡ sparse_of (arrays_of w work.old) w.a w.z (assembled rows (system_in w work.old)) }
{
    let mut count = rows;
    for span in 5..w.place.count {
        count = add_span(work, w, lo, hi, span, count);
    }
    count
}

// Adds the row of node r of the third derivative on the span.
fn add_penalty_node(work: &mut [f64], w: Window, strength: f64, span: usize, r: usize)
    requires { Laid w (length work.old) × (5 ≤ span) × (span < w.place.count) × (r < 3) }
    ensures work_unchanged { before w.place work.new ≡ before w.place work.old }
    ensures work_after { system_in w work.new ≡ added (arrays_of w work.old) w.a w.z
        (penalty_row_of (arrays_of w work.old) strength span r) (system_in w work.old) }
{
    let g = w.place.system;
    let row = fitting_rows::penalty::penalty_row_at(&work[0..g], w.place, strength, span, r);
    add_row(work, w, row);
}

// Adds the three rows of the span.
fn add_penalty_nodes(work: &mut [f64], w: Window, strength: f64, span: usize)
    requires { Laid w (length work.old) × (5 ≤ span) × (span < w.place.count) }
    ensures work_unchanged { before w.place work.new ≡ before w.place work.old }
    ensures work_after { system_in w work.new ≡ nodes_of (arrays_of w work.old) w.a w.z strength span
        (system_in w work.old) }
{
    for r in 0..3 {
        add_penalty_node(work, w, strength, span, r);
    }
}

// Adds them, unless the span is left out.
fn add_penalty(work: &mut [f64], w: Window, strength: f64, lo: f64, hi: f64, span: usize)
    requires window_laid { Laid w (length work.old) × (5 ≤ span) × (span < w.place.count) }
    requires lo_value { (lo ≡ low (arrays_of w work.old) w.a w.z) × (hi ≡ high (arrays_of w work.old) w.a w.z) }
    ensures work_unchanged { before w.place work.new ≡ before w.place work.old }
    ensures work_after { system_in w work.new ≡ penalty_turn (arrays_of w work.old) w.a w.z strength span
        (system_in w work.old) }
{
    let g = w.place.system;
    if fitting_rows::penalty::is_left_out(&work[0..g], w.place, lo, hi, span) {
        return;
    }
    add_penalty_nodes(work, w, strength, span);
}

// Adds the rows of the third derivative on all spans that meet the window.
pub fn add_penalties(work: &mut [f64], w: Window, strength: f64, lo: f64, hi: f64)
    requires window_laid { Laid w (length work.old) }
    requires lo_value { (lo ≡ low (arrays_of w work.old) w.a w.z) × (hi ≡ high (arrays_of w work.old) w.a w.z) }
    ensures work_unchanged { before w.place work.new ≡ before w.place work.old }
    ensures work_after { system_in w work.new ≡ penalties_of (arrays_of w work.old) w.a w.z strength
        (system_in w work.old) }
{
    for span in 5..w.place.count {
        add_penalty(work, w, strength, lo, hi, span);
    }
}
