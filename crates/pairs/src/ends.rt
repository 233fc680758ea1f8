// Pairs of ends: an interval of numbers, or none. A sum or a difference takes the exact results of two
// ends, rounded downward and upward. A product or a quotient takes all combinations of ends, each rounded
// once, then the lowest and the highest of them, then the next number outward.
ghost use Rattle.std.specs.Prelude.{◌&&◌, cond, ◌≡◌};
ghost use Rattle.std.specs.Float.{binary64};
ghost use Rattle.std.specs.Float.Ieee.{lt};
ghost use Rattle.fraction.specs.Pair.{add_pairs, divide_pairs, finite_ends, highest, largest_absolute, lowest, multiply_pairs, none, outward, point, subtract_pairs};
ghost use Rattle.pairs.specs.Structs.{ends_of, largest_number, lowest_number};

use crate::{directed, neighbours};

// The pair from `low` to `high`, if `good`; otherwise none. A flag and no Option: so an operation computes
// both ends and the flag without a branch, where an Option would ask for one at every step.
#[derive(Clone, Copy)]
pub struct Ends {
    pub low: f64,
    pub high: f64,
    pub good: bool,
}

// A pair of equal ends.
pub fn both(x: f64) -> Ends
    ensures { ends_of result ≡ point x }
{
    Ends {
        low: x,
        high: x,
        good: true,
    }
}

// The pair, if `good`; otherwise none. Only the flag is written: no branch waits for it.
fn kept(good: bool, e: Ends) -> Ends
    ensures { ends_of result ≡ cond good (ends_of e) none }
{
    Ends {
        low: e.low,
        high: e.high,
        good: good & e.good,
    }
}

// The two ends, if both are finite.
pub fn finite_ends(a: f64, b: f64) -> Ends
    ensures { ends_of result ≡ finite_ends a b }
{
    let e = Ends {
        low: a,
        high: b,
        good: true,
    };
    kept(float::is_finite(a), kept(float::is_finite(b), e))
}

// The lower and the higher of two; the first, where neither is: `min` and `max` say nothing of a zero's sign.
#[tactic(auto, unfolding(fraction::specs::Pair::lowest))]
pub fn lower(x: f64, y: f64) -> f64
    ensures { result ≡ lowest x y }
{
    if y < x { y } else { x }
}

#[tactic(auto, unfolding(fraction::specs::Pair::highest))]
pub fn higher(x: f64, y: f64) -> f64
    ensures { result ≡ highest x y }
{
    if x < y { y } else { x }
}

// Whether both can be moved outward and stay finite: the one is above the lowest number, the other below
// the largest.
fn movable(low: f64, high: f64) -> bool
    ensures { result ≡ (lt lowest_number low && lt high largest_number) }
{
    -1.7976931348623157e308 < low && high < 1.7976931348623157e308
}

// The lowest and the highest of four combinations, if finite, each moved outward. One test of each is
// enough, since a lowest of +infinity leaves a highest of +infinity.
fn widened(p: f64, q: f64, r: f64, s: f64) -> Ends
    ensures { ends_of result ≡ outward binary64 p q r s }
{
    let low = lower(lower(p, q), lower(r, s));
    let high = higher(higher(p, q), higher(r, s));
    if movable(low, high) {
        return Ends {
            low: neighbours::step_down(low),
            high: neighbours::step_up(high),
            good: true,
        };
    }
    Ends {
        low: 0.0,
        high: 0.0,
        good: false,
    }
}

// x + y: the sum of the low ends downward, that of the high ends upward.
pub fn add(x: Ends, y: Ends) -> Ends
    ensures { ends_of result ≡ add_pairs binary64 (ends_of x) (ends_of y) }
{
    let e = finite_ends(
        directed::sum_down(x.low, y.low),
        directed::sum_up(x.high, y.high),
    );
    kept(x.good, kept(y.good, e))
}

// x - y: the same of x and -y.
pub fn subtract(x: Ends, y: Ends) -> Ends
    ensures { ends_of result ≡ subtract_pairs binary64 (ends_of x) (ends_of y) }
{
    let e = finite_ends(
        directed::sum_down(x.low, -y.high),
        directed::sum_up(x.high, -y.low),
    );
    kept(x.good, kept(y.good, e))
}

// x * y and x / y: all combinations of ends, each rounded once, then moved outward.
pub fn multiply(x: Ends, y: Ends) -> Ends
    ensures { ends_of result ≡ multiply_pairs binary64 (ends_of x) (ends_of y) }
{
    let e = widened(
        x.low * y.low,
        x.low * y.high,
        x.high * y.low,
        x.high * y.high,
    );
    kept(x.good, kept(y.good, e))
}

// a * b, of two numbers, the second one of which is read.
pub fn product(a: f64, b: f64) -> Ends
    ensures { ends_of result ≡ multiply_pairs binary64 (point a) (finite_ends b b) }
{
    let v = a * b;
    kept(float::is_finite(b), widened(v, v, v, v))
}

// x * c, of a number.
pub fn multiply_by(x: Ends, c: f64) -> Ends
    ensures { ends_of result ≡ multiply_pairs binary64 (ends_of x) (point c) }
{
    let v = x.low * c;
    let w = x.high * c;
    kept(x.good, widened(v, v, w, w))
}

// x / c, of a number; none, where it is not above 0.
pub fn divide_by(x: Ends, c: f64) -> Ends
    ensures { ends_of result ≡ divide_pairs binary64 (ends_of x) (point c) }
{
    let v = x.low / c;
    let w = x.high / c;
    kept(x.good, kept(0.0 < c, widened(v, v, w, w)))
}

// None, where the divisor's low end is not above 0.
pub fn divide(x: Ends, y: Ends) -> Ends
    ensures { ends_of result ≡ divide_pairs binary64 (ends_of x) (ends_of y) }
{
    let e = widened(
        x.low / y.low,
        x.low / y.high,
        x.high / y.low,
        x.high / y.high,
    );
    kept(x.good, kept(y.good, kept(0.0 < y.low, e)))
}

// The largest absolute end.
pub fn largest_end(x: Ends) -> f64
    ensures { result ≡ largest_absolute x.low x.high }
{
    higher(float::abs(x.low), float::abs(x.high))
}
