// The turns of the cutting order: in each the lowest-numbered ready lane is taken.
ghost use Rattle.std.specs.Prelude.{◌≡◌, false, not, ◌&&◌, ◌||◌, List, ℕ, ◌≤◌, ◌<◌, eqb, length};
ghost use Rattle.arith.specs.First.{every};
ghost use Rattle.order.specs.Order.{passes, next_of, order_of};
ghost use Rattle.order.specs.Sets.{held, SetOf, Fitting};
ghost use Rattle.order.specs.Outcome.{is_ring, placed};

use crate::sets;

// The set with lane `after` too, where lane `before` is not cut.
fn hold_back(set: u64, cut: u64, before: usize, after: usize) -> u64
    requires { (before < 64) × (after < 64) }
    ensures { (l : ℕ) → held result l ≡ (held set l || (not (held cut before) && eqb after l)) }
{
    if sets::has(cut, before) {
        set
    } else {
        sets::insert(set, after)
    }
}

// The lanes that a pair holds back: its first lane is not cut.
fn waiting(pairs: &[[usize; 2]], cut: u64) -> u64
    requires { Fitting pairs.now }
    ensures { (list : List ℕ) → SetOf list cut → (l : ℕ) → held result l ≡ not (every (length pairs.now)
        (passes pairs.now list l)) }
{
    let mut set = 0u64;
    for pair in pairs {
        set = hold_back(set, cut, pair[0], pair[1]);
    }
    set
}

// The lowest-numbered ready lane; the number of lanes where none is ready.
fn next(pairs: &[[usize; 2]], lanes: usize, cut: u64) -> usize
    requires { Fitting pairs.now × (lanes ≤ 64) }
    ensures { (list : List ℕ) → SetOf list cut → result ≡ next_of lanes pairs.now list }
{
    sets::lowest_outside(sets::union(cut, waiting(pairs, cut)), lanes)
}

// Whether there is no cutting order. The turns are taken for this alone, and again by `write_order`: a
// refusal has written nothing, and one function of both by a closure is no plainer.
pub(crate) fn has_ring(pairs: &[[usize; 2]], lanes: usize) -> bool
    requires { Fitting pairs.now × (lanes ≤ 64) }
    ensures { result ≡ is_ring (order_of lanes pairs.now) }
{
    let mut cut = 0u64;
    for _place in 0..lanes {
        let lane = next(pairs, lanes, cut);
        if lanes <= lane {
            return true;
        }
        cut = sets::insert(cut, lane);
    }
    false
}

// The cutting order into the first cells.
pub(crate) fn write_order(pairs: &[[usize; 2]], lanes: usize, order: &mut [usize])
    requires { Fitting pairs.now × (lanes ≤ 64) × (lanes ≤ length order.old) × (is_ring (order_of lanes pairs.now) ≡ false) }
    ensures { order.new ≡ (placed (order_of lanes pairs.now) order.old).cells }
{
    let mut cut = 0u64;
    for place in 0..lanes {
        let lane = next(pairs, lanes, cut);
        order[place] = lane;
        cut = sets::insert(cut, lane);
    }
}
