// Which lane is cut first: document 02, request 14.
#![tactic(auto)]

ghost use Rattle.std.specs.Prelude.{◌≡◌};
ghost use Rattle.order.specs.Outcome.{outcome, number_of, in_range, cutting_order_of, Promised};

mod sets; // sets.rt: sets of lanes as numbers
mod turns; // turns.rt: the lowest-numbered ready lane, place after place

// Why there is no order. A refusal has written nothing.
#[derive(Clone, Copy, Debug, PartialEq, Eq)]
pub enum Refusal {
    // 18: more lanes than 64, or more pairs than 1,024
    AboveLimits,
    // 31: a lane of a pair is not among the lanes
    NoSuchLane,
    // 19: the slice is too short
    TooShort,
    // 32: no order meets all pairs
    Ring,
}

// An answer's number in the papers, 0 where there is an order.
pub fn number(answer: Result<(), Refusal>) -> u64
    ensures { result ≡ number_of answer }
{
    match answer {
        Ok(()) => 0,
        Err(Refusal::AboveLimits) => 18,
        Err(Refusal::NoSuchLane) => 31,
        Err(Refusal::TooShort) => 19,
        Err(Refusal::Ring) => 32,
    }
}

// Whether both lanes of every pair are among the lanes.
fn in_range(pairs: &[[usize; 2]], lanes: usize) -> bool
    ensures { result ≡ in_range lanes pairs.now }
{
    for pair in pairs {
        if lanes <= pair[0] || lanes <= pair[1] {
            return false;
        }
    }
    true
}

// The cutting order of the lanes numbered from 0 that takes the lowest-numbered ready lane each time, to
// the first cells of `order`. Each pair is a lane that is cut before, and the lane that waits for it.
pub fn cutting_order(lanes: usize, pairs: &[[usize; 2]], order: &mut [usize]) -> Result<(), Refusal>
    ensures order_after { outcome (number_of result) order.new ≡ cutting_order_of lanes pairs.now order.old }
    ensures promised { Promised lanes pairs.now order.old (outcome (number_of result) order.new) }
{
    if 64 < lanes || 1024 < pairs.len() {
        return Err(Refusal::AboveLimits);
    }
    if !in_range(pairs, lanes) {
        return Err(Refusal::NoSuchLane);
    }
    if order.len() < lanes {
        return Err(Refusal::TooShort);
    }
    if turns::has_ring(pairs, lanes) {
        return Err(Refusal::Ring);
    }
    turns::write_order(pairs, lanes, order);
    Ok(())
}
