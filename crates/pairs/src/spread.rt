// Spreads: pairs of ends, held so that both ends are rounded upward. Sums, products and quotients are those
// of `ends`, for numbers of a known size: no end can be out of range, and none is tested.
ghost use Rattle.std.specs.Prelude.{true, ◌≡◌, ◌+◌, ◌≤◌, suc, ℕ};
ghost use Rattle.std.specs.Float.{binary64};
ghost use Rattle.std.specs.Float.Ieee.{le};
ghost use Rattle.fraction.specs.Pair.{Ends, add_pairs, divide_pairs, finite_ends, highest_of, multiply_pairs, point, subtract_pairs};
ghost use Rattle.fraction.specs.Rational.{◌≤q◌, 𝟘, 𝟙};
ghost use Rattle.fraction.specs.Value.{value};
ghost use Rattle.window.specs.Cells.{+0};
ghost use Rattle.pairs.specs.Spreads.{Number, Stands, shortest};

use crate::{ends, upward};

// The pair from -below to above.
#[derive(Clone, Copy)]
pub struct Spread {
    pub below: f64,
    pub above: f64,
}

// A number that is read.
pub fn single(x: f64) -> Spread
    ensures { (a : ℕ) → Number a x → Stands a (finite_ends x x) result }
{
    Spread {
        below: -x,
        above: x,
    }
}

// x + y
pub fn add(x: Spread, y: Spread) -> Spread
    ensures { (a : ℕ) (e g : Ends) → a ≤ 997 → Stands a e x → Stands a g y → Stands (suc a) (add_pairs binary64 e g) result }
{
    Spread {
        below: upward::sum(x.below, y.below),
        above: upward::sum(x.above, y.above),
    }
}

// x - y
pub fn subtract(x: Spread, y: Spread) -> Spread
    ensures { (a : ℕ) (e g : Ends) → a ≤ 997 → Stands a e x → Stands a g y → Stands (suc a) (subtract_pairs binary64 e g) result }
{
    Spread {
        below: upward::sum(x.below, y.above),
        above: upward::sum(x.above, y.below),
    }
}

// The highest of four.
fn highest(p: f64, q: f64, r: f64, s: f64) -> f64
    ensures { result ≡ highest_of p q r s }
{
    ends::higher(ends::higher(p, q), ends::higher(r, s))
}

// x * y: minus the lowest of four products is the highest of the four with a sign turned.
pub fn times(x: Spread, y: Spread) -> Spread
    ensures { (a b : ℕ) (e g : Ends) → a + b ≤ 999 → Stands a e x → Stands b g y
        → Stands (suc (a + b)) (multiply_pairs binary64 e g) result }
{
    let b = x.below;
    let a = x.above;
    let l = y.below;
    let h = y.above;
    Spread {
        below: upward::step(highest(b * -l, b * h, a * l, a * -h)),
        above: upward::step(highest(a * -l, a * h, b * l, b * -h)),
    }
}

// x * c, of a number that is not negative.
pub fn times_number(x: Spread, c: f64) -> Spread
    ensures { (a b : ℕ) (e : Ends) → a + b ≤ 999 → Stands a e x → Number b c → 𝟘 ≤q value c
        → Stands (suc (a + b)) (multiply_pairs binary64 e (point c)) result }
{
    let b = x.below;
    let a = x.above;
    Spread {
        below: upward::step(b * c),
        above: upward::step(a * c),
    }
}

// x / c, of a number from 1 on.
pub fn over_number(x: Spread, c: f64) -> Spread
    ensures { (a b : ℕ) (e : Ends) → a ≤ 999 → Stands a e x → Number b c → 𝟙 ≤q value c
        → Stands (suc a) (divide_pairs binary64 e (point c)) result }
{
    let b = x.below;
    let a = x.above;
    Spread {
        below: upward::step(b / c),
        above: upward::step(a / c),
    }
}

// x / y: x is not below 0, and y not below the shortest length.
pub fn over(x: Spread, y: Spread) -> Spread
    ensures { (a b : ℕ) (e g : Ends) → a ≤ 900 → Stands a e x → Stands b g y → le x.below +0 ≡ true
        → le y.below shortest ≡ true → Stands (suc (a + 60)) (divide_pairs binary64 e g) result }
{
    let b = x.below;
    let a = x.above;
    let l = y.below;
    let h = y.above;
    Spread {
        below: upward::step(b / h),
        above: upward::step(a / -l),
    }
}

// c * p, of a number that is read.
pub fn product(c: f64, p: f64) -> Spread
    ensures { (a b : ℕ) → a + b ≤ 999 → Number a c → Number b p
        → Stands (suc (a + b)) (multiply_pairs binary64 (point c) (finite_ends p p)) result }
{
    let v = c * p;
    Spread {
        below: upward::step(-v),
        above: upward::step(v),
    }
}
