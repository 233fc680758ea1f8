// Whole powers.
ghost use Rattle.std.specs.Prelude.{◌≡◌};
ghost use Rattle.arith.specs.Operations.{floats};
ghost use Rattle.float.specs.Power.{power_of};

// x to the n, by squaring from the low bit of n, starting at 1, for every n. Each product is
// rounded once.
pub fn powi(x: f64, n: u32) -> f64
    ensures { result ≡ power_of floats x n }
{
    let mut result = 1.0;
    let mut base = x;
    let mut left = n;
    // `left` is halved in each turn: it counts no index.
    while 0 < left {
        if left % 2 == 1 {
            result *= base;
        }
        base *= base;
        left /= 2;
    }
    result
}
