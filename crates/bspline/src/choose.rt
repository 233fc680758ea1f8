// The source's table of factorials and its binomial coefficients.
ghost use Rattle.std.specs.Prelude.{◌≡◌, ◌≤◌, ◌<◌};
ghost use Rattle.arith.specs.Operations.{floats};
ghost use Rattle.bspline.specs.Choose.{choose_of};

// 0! to 5!
pub const FACT: [f64; 6] = [1., 1., 2., 6., 24., 120.];

// n over k, for n up to five.
pub fn choose(n: usize, k: usize) -> f64
    requires { (n < 6) × (k ≤ n) }
    ensures { result ≡ choose_of floats n k }
{
    FACT[n] / (FACT[k] * FACT[n - k])
}
