// Where an axis stands in a list of axes, and among all axes of a curve.
ghost use Rattle.std.specs.Prelude.{◌≡◌, ◌≤◌, ◌<◌};
ghost use Rattle.curve.specs.Places.{position_of, axis_place};

// The place of axis a among the first n listed axes; n where it is not there, as the definition has it:
// its users compare places, so that an Option is no plainer.
pub fn position(axes: &[usize; 16], n: usize, a: usize) -> usize
    requires { n ≤ 16 }
    ensures { result ≡ position_of axes.now n a }
{
    for i in 0..n {
        if axes[i] == a {
            return i;
        }
    }
    n
}

// The place of an axis of a curve: among the k selected axes its index; the other axes follow in rising order.
pub fn axis_place(axes: &[usize; 16], k: usize, axis: usize) -> usize
    requires { (k ≤ 16) × (axis < 16) }
    ensures { result ≡ axis_place axes.now k axis }
{
    let listed = position(axes, k, axis);
    if listed < k {
        return listed;
    }
    let mut others = 0;
    for a in 0..axis {
        if k <= position(axes, k, a) {
            others += 1;
        }
    }
    k + others
}
