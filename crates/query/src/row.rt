// The axes of one query, written to the four slices.
ghost use Rattle.std.specs.Prelude.{◌≡◌, [], ◌∷◌, ℕ, ◌+◌, ◌*◌, ◌≤◌, ◌<◌, length, get_or};
ghost use Rattle.query.specs.Row.{outputs, Room, filled, standing, row_of};

use crate::segment;
use crate::segment::{Derivatives, Local};

// One axis: the cell at i of each slice up to the order asked.
fn put_axis(
    v: Derivatives,
    order: usize,
    i: usize,
    q: &mut [f64],
    dq: &mut [f64],
    ddq: &mut [f64],
    dddq: &mut [f64],
)
    requires { Room order (i + 1) (outputs q.old dq.old ddq.old dddq.old) }
    ensures { outputs q.new dq.new ddq.new dddq.new
        ≡ filled order i (λ part. part v ∷ []) (outputs q.old dq.old ddq.old dddq.old) }
{
    q[i] = v.value;
    if order < 1 {
        return;
    }
    dq[i] = v.first;
    if order < 2 {
        return;
    }
    ddq[i] = v.second;
    if order < 3 {
        return;
    }
    dddq[i] = v.third;
}

// What is written of an axis: outside start to end its value, and +0 for its derivatives.
#[tactic(auto, unfolding(crate::specs::Row::standing))]
fn stand(v: Derivatives, outside: bool) -> Derivatives
    ensures { result ≡ standing outside v }
{
    if outside {
        return Derivatives {
            value: v.value,
            first: 0.0,
            second: 0.0,
            third: 0.0,
        };
    }
    v
}

// Every axis, from the cell `at` of each slice on: values to q, derivatives up to the order asked to the
// others, of which those of higher orders stay as they are.
pub fn put_axes<'a>(
    selected: &'a [f64],
    other: &'a [f64],
    k: usize,
    m: usize,
    table: &[usize; 16],
    here: Local,
    there: Local,
    scale: f64,
    outside: bool,
    order: usize,
    at: usize,
    q: &mut [f64],
    dq: &mut [f64],
    ddq: &mut [f64],
    dddq: &mut [f64],
)
    requires m_bound { (k + m ≤ 16) × (6 * (here.span * k + k) ≤ length selected.now) × (6 * (there.span * m + m) ≤ length other.now) }
    requires by_index { (a : ℕ) → a < k + m → get_or table.now a 0 < k + m }
    requires room { Room order (at + (k + m)) (outputs q.old dq.old ddq.old dddq.old) }
    ensures { outputs q.new dq.new ddq.new dddq.new
        ≡ filled order at (λ part. row_of part selected.now other.now k m table.now here there scale outside)
        (outputs q.old dq.old ddq.old dddq.old) }
{
    let d = k + m;
    for a in 0..d {
        let v = segment::axis(selected, other, k, m, table[a], here, there, scale);
        put_axis(stand(v, outside), order, at + a, q, dq, ddq, dddq);
    }
}
