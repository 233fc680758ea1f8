// The system of all rows. It lies between the knots and the controls, in the same slice.
ghost use Rattle.std.specs.Prelude.{◌≡◌, ◌+◌, ◌-◌, ◌*◌, ◌≤◌, ◌<◌, length};
ghost use Rattle.arith.specs.Loop.{each};
ghost use Rattle.window.specs.Window.{window, splice};
ghost use Rattle.window.specs.Cells.{at};
ghost use Rattle.normal.specs.System.{new_of};
ghost use Rattle.normal.specs.Add.{add_of};
ghost use Rattle.fitting_rows.specs.Arrays.{arrays_at};
ghost use Rattle.smoothing.specs.Start.{open_knots};
ghost use Rattle.smoothing.specs.Interpolate.{waypoint_knots, waypoint_turn, end_turns, interpolation_system};
ghost use Rattle.interpolation.specs.Memory.{NodesLaid, system_in};
ghost use Rattle.interpolation.specs.Rows.{prepared, waypoint_row, end_row};

use crate::rows;
use fitting_rows::Place;

// Knot j: six times 0, the parameters of the inner ones of n waypoints, six times 1.
fn knot(s: &[f64], n: usize, j: usize) -> f64
    requires { (2 ≤ n) × (n ≤ length s.now) × (j < n + 10) }
    ensures { result ≡ at (open_knots (window 1 (n - 1) s.now)) j }
{
    if j < 6 {
        return 0.0;
    }
    if j - 4 < n {
        return s[j - 5];
    }
    1.0
}

// The knots in their place.
fn put_knots(work: &mut [f64], q: Place)
    requires { NodesLaid q (length work.old) }
    ensures { work.new
        ≡ splice q.knots (q.knots + (q.count + 6)) (open_knots (window 1 (q.samples - 1) (arrays_at q work.old).s))
        work.old }
{
    let n = q.samples;
    let s = q.parameters;
    let s_end = s + n;
    let t = q.knots;
    let count = q.count + 6;
    for j in 0..count {
        let v = knot(&work[s..s_end], n, j);
        work[t + j] = v;
    }
}

// The knots; controls of +0, and a system without rows.
fn prepare(work: &mut [f64], q: Place)
    requires { NodesLaid q (length work.old) }
    ensures work_after { arrays_at q work.new ≡ prepared (arrays_at q work.old) }
    ensures work_after_2 { system_in q work.new ≡ new_of q.count q.axes }
{
    put_knots(work, q);
    let d = q.axes;
    let m = q.count;
    let c = q.controls;
    let c_end = c + m * d;
    window::clear(&mut work[c..c_end]);
    let g = q.system;
    let e = g + (6 * m + m * d + m);
    window::clear(&mut work[g..e]);
}

// Adds a row to the system.
fn add_row(work: &mut [f64], q: Place, row: normal::Row)
    requires { NodesLaid q (length work.old) × (row.start < q.count) }
    ensures work_unchanged { arrays_at q work.new ≡ arrays_at q work.old }
    ensures work_after { system_in q work.new ≡ add_of 0 q.count q.axes row (system_in q work.old) }
{
    let d = q.axes;
    let m = q.count;
    let g = q.system;
    let e = g + (6 * m + m * d + m);
    normal::add(&mut work[g..e], 0, m, d, row);
}

// Adds the row of waypoint i.
fn add_waypoint(work: &mut [f64], q: Place, i: usize)
    requires { NodesLaid q (length work.old) × (i < q.samples) }
    ensures work_unchanged { arrays_at q work.new ≡ arrays_at q work.old }
    ensures work_after { system_in q work.new
        ≡ add_of 0 q.count q.axes (waypoint_row (arrays_at q work.old) i) (system_in q work.old) }
{
    let row = rows::waypoint_row(work, q, i);
    add_row(work, q, row);
}

// Adds the rows of all waypoints.
fn add_waypoints(work: &mut [f64], q: Place)
    requires { NodesLaid q (length work.old) × (arrays_at q work.old ≡ prepared (arrays_at q work.old)) }
    ensures work_unchanged { arrays_at q work.new ≡ arrays_at q work.old }
    ensures work_after { system_in q work.new
        ≡ each (waypoint_turn q.samples q.axes (arrays_at q work.old).s (arrays_at q work.old).y) 0 q.samples
        (system_in q work.old) }
{
    let n = q.samples;
    for i in 0..n {
        add_waypoint(work, q, i);
    }
}

// Adds the row of the derivative of order r at an end u whose interval is h wide.
fn add_derivative(work: &mut [f64], q: Place, u: f64, h: f64, r: usize)
    requires { NodesLaid q (length work.old) × (r < 6) }
    ensures work_unchanged { arrays_at q work.new ≡ arrays_at q work.old }
    ensures work_after { system_in q work.new
        ≡ add_of 0 q.count q.axes (end_row (arrays_at q work.old) u h r) (system_in q work.old) }
{
    let row = rows::end_row(work, q, u, h, r);
    add_row(work, q, row);
}

// Adds the two rows of an end.
fn add_end(work: &mut [f64], q: Place, u: f64, h: f64)
    requires { NodesLaid q (length work.old) × (arrays_at q work.old ≡ prepared (arrays_at q work.old)) }
    ensures work_unchanged { arrays_at q work.new ≡ arrays_at q work.old }
    ensures work_after { system_in q work.new
        ≡ end_turns q.samples q.axes (arrays_at q work.old).s (arrays_at q work.old).y u h
        (system_in q work.old) }
{
    for r in 1..3 {
        add_derivative(work, q, u, h, r);
    }
}

// The system with all its rows; the knots are in their place.
pub fn assemble(work: &mut [f64], q: Place)
    requires { NodesLaid q (length work.old) }
    ensures work_after { (arrays_at q work.new).t
        ≡ waypoint_knots q.samples q.axes (arrays_at q work.old).s (arrays_at q work.old).y }
    ensures work_after_2 { system_in q work.new
        ≡ interpolation_system q.samples q.axes (arrays_at q work.old).s (arrays_at q work.old).y }
{
    prepare(work, q);
    add_waypoints(work, q);
    let s = q.parameters;
    let z = s + q.samples;
    let first = work[s + 1] - work[s];
    let last = work[z - 1] - work[z - 2];
    add_end(work, q, 0.0, first);
    add_end(work, q, 1.0, last);
}
