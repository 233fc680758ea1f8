// The breaks of the return lane: 1 minus the old ones in reverse.
ghost use Rattle.std.specs.Prelude.{◌≡◌, ◌+◌, ◌-◌, ◌≤◌, ◌<◌, length};
ghost use Rattle.window.specs.Rows.{written};
ghost use Rattle.return_lane.specs.Return.{return_break, return_breaks, rises_back};

use curve::count::one_if;

// Break i.
fn break_at(breaks: &[f64], i: usize) -> f64
    requires { i < length breaks.now }
    ensures { result ≡ return_break breaks.now i }
{
    1.0 - breaks[breaks.len() - (i + 1)]
}

// Whether they rise strictly: those that are below the next are counted, since a loop that may end early is
// not vectorised.
pub fn rise_back(breaks: &[f64]) -> bool
    ensures { result ≡ rises_back breaks.now }
{
    let last = breaks.len().saturating_sub(1);
    let mut below = 0;
    for i in 0..last {
        below += one_if(break_at(breaks, i) < break_at(breaks, i + 1));
    }
    below == last
}

// All of them, to the first cells.
pub fn put_breaks(breaks: &[f64], cells: &mut [f64])
    requires { length breaks.now ≤ length cells.old }
    ensures { cells.new ≡ written 0 (return_breaks breaks.now) cells.old }
{
    for i in 0..breaks.len() {
        cells[i] = break_at(breaks, i);
    }
}
