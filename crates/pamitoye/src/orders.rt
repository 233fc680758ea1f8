// Which lane is cut first.
ghost use Rattle.std.specs.Prelude.{◌≡◌};
ghost use Rattle.order.specs.Outcome.{outcome, cutting_order_of, Promised};

use order::{cutting_order, number};

// The cutting order: `order::cutting_order`. An order that is given meets all pairs, and is the least of
// those that do; 32 says that none does.
#[unsafe(no_mangle)]
pub extern "C" fn pamitoye_cutting_order(
    lanes: usize,
    pairs: &[[usize; 2]],
    order: &mut [usize],
) -> u64
    ensures order_after { outcome result order.new ≡ cutting_order_of lanes pairs.now order.old }
    ensures promised { Promised lanes pairs.now order.old (outcome result order.new) }
{
    number(cutting_order(lanes, pairs, order))
}
