// Sets of lanes: bit l of the number is 1 where lane l is in the set.
ghost use Rattle.std.specs.Prelude.{◌≡◌, not, ◌||◌, ℕ, ◌≤◌, ◌<◌, eqb};
ghost use Rattle.arith.specs.First.{first_of};
ghost use Rattle.order.specs.Sets.{held};

// Whether the lane is in the set.
#[tactic(auto, unfolding(crate::specs::Sets::held))]
pub(crate) fn has(set: u64, lane: usize) -> bool
    requires { lane < 64 }
    ensures { result ≡ held set lane }
{
    (set >> lane) % 2 == 1
}

// The lanes of both sets.
pub(crate) fn union(a: u64, b: u64) -> u64
    ensures { (l : ℕ) → held result l ≡ (held a l || held b l) }
{
    a | b
}

// The set with the lane.
pub(crate) fn insert(set: u64, lane: usize) -> u64
    requires { lane < 64 }
    ensures { (l : ℕ) → held result l ≡ (held set l || eqb lane l) }
{
    set | (1u64 << lane)
}

// The lowest-numbered of the lanes that is not in the set; their number where all are.
pub(crate) fn lowest_outside(set: u64, lanes: usize) -> usize
    requires { lanes ≤ 64 }
    ensures { result ≡ first_of lanes (λ l. not (held set l)) }
{
    for lane in 0..lanes {
        if !has(set, lane) {
            return lane;
        }
    }
    lanes
}
