// Back to physical units: the controls, and the errors on each axis.
ghost use Rattle.std.specs.Prelude.{◌≡◌, ◌+◌, ◌*◌, ◌≤◌, ◌<◌, length, take};
ghost use Rattle.window.specs.Cells.{at};
ghost use Rattle.window.specs.Rows.{list_of, table, written};
ghost use Rattle.smoothing.specs.Finish.{error_of, excessive};
ghost use Rattle.refinement.specs.Memory.{Roomy, memory_at, with_controls};
ghost use Rattle.selected_axes.specs.Physical.{scaled};

use refinement::plan::Plan;

// The control at `to`: each cell times its tolerance, plus the first waypoint's, which lies at `first`.
fn scale_control(work: &mut [f64], to: usize, first: usize, d: usize, eps: &[f64; 16])
    requires { (d ≤ 16) × (first + d ≤ to) × (to + d ≤ length work.old) }
    ensures { work.new
        ≡ written to (list_of d (λ a. scaled (at work.old (to + a)) (at eps.now a)
        (at work.old (first + a)))) work.old }
{
    for a in 0..d {
        work[to + a] = work[to + a] * eps[a] + work[first + a];
    }
}

// The m controls from `to` on.
fn scale_controls(work: &mut [f64], to: usize, m: usize, first: usize, d: usize, eps: &[f64; 16])
    requires { (d ≤ 16) × (first + d ≤ to) × (to + m * d ≤ length work.old) }
    ensures { work.new
        ≡ written to (table m d (λ i a. scaled (at work.old (to + i * d + a)) (at eps.now a)
        (at work.old (first + a)))) work.old }
{
    for i in 0..m {
        scale_control(work, to + i * d, first, d, eps);
    }
}

// The stored controls, where the stored points are the waypoints as handed in.
pub(crate) fn scale_all(work: &mut [f64], p: Plan, eps: &[f64; 16])
    requires { Roomy p (length work.old) }
    ensures { memory_at p work.new
        ≡ with_controls (table p.count p.axes (λ i a. scaled (at (memory_at p work.old).c (i * p.axes + a))
        (at eps.now a) (at (memory_at p work.old).y a))) (memory_at p work.old) }
{
    let s = refinement::plan::spline_of(p);
    scale_controls(work, s.controls, p.count, p.room, p.axes, eps);
}

// The largest of the bounds of axis a over n intervals, and at least +0.
fn error(bounds: &[f64], n: usize, d: usize, a: usize) -> f64
    requires { (a < d) × (n * d ≤ length bounds.now) }
    ensures { result ≡ error_of (n + 1) d bounds.now a }
{
    let mut w = 0.0;
    for i in 0..n {
        w = float::max(w, bounds[i * d + a]);
    }
    w
}

// The same for each of d axes.
pub(crate) fn errors(bounds: &[f64], n: usize, d: usize) -> [f64; 16]
    requires { (d ≤ 16) × (n * d ≤ length bounds.now) }
    ensures { take d result ≡ list_of d (error_of (n + 1) d bounds.now) }
{
    let mut e = [0.0; 16];
    for a in 0..d {
        e[a] = error(bounds, n, d, a);
    }
    e
}

// Whether some error of d is above its tolerance.
pub(crate) fn is_excessive(eps: &[f64; 16], errors: &[f64; 16], d: usize) -> bool
    requires { d ≤ 16 }
    ensures { result ≡ excessive (take d eps.now) d (take d errors.now) }
{
    for a in 0..d {
        if eps[a] < errors[a] {
            return true;
        }
    }
    false
}
