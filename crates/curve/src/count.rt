// Counts without a branch.
ghost use Rattle.std.specs.Prelude.{◌≡◌, cond, ◌≤◌};

// 1 where the test holds, and 0 where it does not.
pub fn one_if(test: bool) -> usize
    ensures { (result ≡ cond test 1 0) × (result ≤ 1) }
{
    test as usize
}
