// The source's linear test: whether every waypoint lies within 0.95 of the chord from the first to the
// last, on every axis.
ghost use Rattle.std.specs.Prelude.{◌≡◌, ◌+◌, ◌-◌, ◌*◌, ◌≤◌, ◌<◌, length};
ghost use Rattle.smoothing.specs.Start.{curved};
ghost use Rattle.refinement.specs.Memory.{Roomy, memory_at, task_in};
ghost use Rattle.selected_axes.specs.First.{task_over, strayed};

use refinement::plan::Plan;

// Whether waypoint i of n lies further off on some axis.
fn strays(s: &[f64], y: &[f64], n: usize, d: usize, i: usize) -> bool
    requires { (i < n) × (n ≤ length s.now) × (n * d ≤ length y.now) }
    ensures { result ≡ strayed (task_over n d s.now y.now) i }
{
    let u = s[i];
    let from = i * d;
    let last = (n - 1) * d;
    for a in 0..d {
        if !(float::abs(y[from + a] - u * y[last + a]) <= 0.95) {
            return true;
        }
    }
    false
}

// Whether some waypoint of n does.
fn any_strays(s: &[f64], y: &[f64], n: usize, d: usize) -> bool
    requires { (n ≤ length s.now) × (n * d ≤ length y.now) }
    ensures { result ≡ curved (task_over n d s.now y.now) }
{
    for i in 0..n {
        if strays(s, y, n, d, i) {
            return true;
        }
    }
    false
}

// The same of the stored waypoints.
pub(crate) fn is_curved(work: &[f64], p: Plan) -> bool
    requires { Roomy p (length work.now) }
    ensures { result ≡ curved (task_in p (memory_at p work.now)) }
{
    let n = p.samples;
    let d = p.axes;
    let y = p.room;
    let y_end = y + n * d;
    any_strays(&work[0..n], &work[y..y_end], n, d)
}
