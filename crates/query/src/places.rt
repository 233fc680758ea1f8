// Where each axis stands among the axes of its set.
ghost use Rattle.std.specs.Prelude.{◌≡◌, ℕ, ◌≤◌, ◌<◌, get_or};
ghost use Rattle.curve.specs.Places.{axis_place};

use curve::place::position;

// The places of d axes, of which the first k of the list are selected.
pub fn find_places(axes: &[usize; 16], k: usize, d: usize) -> [usize; 16]
    requires { (k ≤ 16) × (d ≤ 16) }
    ensures { (a : ℕ) → a < d → get_or result a 0 ≡ axis_place axes.now k a }
{
    let mut at = [0; 16];
    let mut others = 0;
    for a in 0..d {
        let i = position(axes, k, a);
        if i < k {
            at[a] = i;
        } else {
            at[a] = k + others;
            others += 1;
        }
    }
    at
}
