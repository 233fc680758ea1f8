// The figure of an intersection at depth 0, quicker: in spreads, where its numbers are moderate and its
// intervals not too short. It is the figure of `intersection`, and the operations are in the same order.
ghost use Rattle.std.specs.Prelude.{true, ◌≡◌, ◌<◌, ◌≤◌, suc, ℕ, T, Float};
ghost use Rattle.std.specs.Float.Ieee.Scale.{finite};
ghost use Rattle.window.specs.Cells.{at};
ghost use Rattle.fraction.specs.Pair.{Ends, point};
ghost use Rattle.fraction.specs.Rational.{◌≤q◌, 𝟘, 𝟙};
ghost use Rattle.fraction.specs.Value.{value};
ghost use Rattle.figure.specs.Operations.{ends};
ghost use Rattle.figure.specs.Intersection as formula;
ghost use Rattle.figure.specs.Figure.{absolute_end, figure, larger, six_figure};
ghost use Rattle.pairs.specs.Spreads.{Number, Stands};
ghost use Rattle.certificate.specs.Quick.{Divisible, LengthsStand, Moderate, NearParameters, PowersStand, RowStands, power_sum};
ghost use Rattle.estimate.specs.Structs.{intersection_of};
ghost use Rattle.certificate.specs.Structs.{figure_in};

use estimate::intersection::Intersection;
use estimate::sizes;
use pairs::spread::Spread;
use pairs::{ends, spread};

// u^1 .. u^5. Names and no array: an array would hold u^1 at 0, and no loop goes over them.
#[derive(Clone, Copy)]
pub struct Powers {
    pub one: Spread,
    pub two: Spread,
    pub three: Spread,
    pub four: Spread,
    pub five: Spread,
}

// "Powers multiply up from 1".
fn powers_of(u: Spread) -> Powers
    ensures { (e : Ends) → Stands 63 e u → PowersStand e result }
{
    let one = spread::times(spread::single(1.0), u);
    let two = spread::times(one, u);
    let three = spread::times(two, u);
    let four = spread::times(three, u);
    let five = spread::times(four, u);
    Powers {
        one,
        two,
        three,
        four,
        five,
    }
}

// The first term of a sum of terms: 1·p·u^0, added to 0.
fn lead(p: f64) -> Spread
    ensures { Number 100 p → Stands 426 (ends.plus (ends.whole 0) (ends.times (ends.times (ends.whole 1) (ends.number p))
        (ends.whole 1))) result }
{
    spread::times_number(spread::product(1.0, p), 1.0)
}

// s + c·p·u
fn gained(s: Spread, c: f64, p: f64, u: Spread) -> Spread
    ensures { (a : ℕ) (e g : Ends) → 426 ≤ a → a ≤ 900 → Stands a e s → Number 4 c → Number 100 p → Stands 320 g u
        → Stands (suc a) (ends.plus e (ends.times (ends.times (point c) (ends.number p)) g)) result }
{
    spread::add(s, spread::times(spread::product(c, p), u))
}

// The sum of power j over its terms, from k = j on: one function for each j, and p_5 alone for j = 5.
fn sum_0(p: [f64; 6], u: Powers) -> Spread
    ensures { (e : Ends) → ((k : ℕ) → k < 6 → Number 100 (at p k)) → PowersStand e u → Stands 431 (power_sum (at p) e 0) result }
{
    let a = lead(p[0]);
    let b = gained(a, 1.0, p[1], u.one);
    let c = gained(b, 1.0, p[2], u.two);
    let d = gained(c, 1.0, p[3], u.three);
    let e = gained(d, 1.0, p[4], u.four);
    gained(e, 1.0, p[5], u.five)
}

fn sum_1(p: [f64; 6], u: Powers) -> Spread
    ensures { (e : Ends) → ((k : ℕ) → k < 6 → Number 100 (at p k)) → PowersStand e u → Stands 431 (power_sum (at p) e 1) result }
{
    let a = lead(p[1]);
    let b = gained(a, 2.0, p[2], u.one);
    let c = gained(b, 3.0, p[3], u.two);
    let d = gained(c, 4.0, p[4], u.three);
    gained(d, 5.0, p[5], u.four)
}

fn sum_2(p: [f64; 6], u: Powers) -> Spread
    ensures { (e : Ends) → ((k : ℕ) → k < 6 → Number 100 (at p k)) → PowersStand e u → Stands 431 (power_sum (at p) e 2) result }
{
    let a = lead(p[2]);
    let b = gained(a, 3.0, p[3], u.one);
    let c = gained(b, 6.0, p[4], u.two);
    gained(c, 10.0, p[5], u.three)
}

fn sum_3(p: [f64; 6], u: Powers) -> Spread
    ensures { (e : Ends) → ((k : ℕ) → k < 6 → Number 100 (at p k)) → PowersStand e u → Stands 431 (power_sum (at p) e 3) result }
{
    let a = lead(p[3]);
    let b = gained(a, 4.0, p[4], u.one);
    gained(b, 10.0, p[5], u.two)
}

fn sum_4(p: [f64; 6], u: Powers) -> Spread
    ensures { (e : Ends) → ((k : ℕ) → k < 6 → Number 100 (at p k)) → PowersStand e u → Stands 431 (power_sum (at p) e 4) result }
{
    let a = lead(p[4]);
    gained(a, 5.0, p[5], u.one)
}

// A Bernstein coefficient's first term, added to 0: power 0·1/1.
fn first_term(q: Spread) -> Spread
    ensures { (e : Ends) → Stands 754 e q → Stands 760 (ends.plus (ends.whole 0) (ends.over (ends.times e (ends.whole 1))
        (ends.whole 1))) result }
{
    spread::over_number(spread::times_number(q, 1.0), 1.0)
}

// b + q·c/d
fn with_term(b: Spread, q: Spread, c: f64, d: f64) -> Spread
    ensures { (a : ℕ) (e g : Ends) → 760 ≤ a → a ≤ 900 → Stands a e b → Stands 754 g q → Number 4 c → 𝟘 ≤q value c → Number 4 d
        → 𝟙 ≤q value d → Stands (suc a) (ends.plus e (ends.over (ends.times g (point c)) (point d))) result }
{
    spread::add(b, spread::over_number(spread::times_number(q, c), d))
}

// The larger of x and the largest absolute end.
fn largest(x: f64, s: Spread) -> f64
    ensures { (a : ℕ) (e : Ends) → a ≤ 999 → Stands a e s → T (finite x) → 𝟘 ≤q value x
        → (figure result ≡ larger (figure x) (absolute_end e)) × T (finite result) × (𝟘 ≤q value result) }
{
    ends::higher(x, ends::higher(s.below, s.above))
}

// Six spreads: the powers of curve minus line. Names, as in `Powers`, whose fields they meet by name.
#[derive(Clone, Copy)]
pub struct Row {
    pub zero: Spread,
    pub one: Spread,
    pub two: Spread,
    pub three: Spread,
    pub four: Spread,
    pub five: Spread,
}

// The six sums.
fn sums(p: [f64; 6], u: Powers) -> Row
    ensures { (e : Ends) → ((k : ℕ) → k < 6 → Number 100 (at p k)) → PowersStand e u → RowStands 431 (power_sum (at p) e) result }
{
    let zero = sum_0(p, u);
    let one = sum_1(p, u);
    let two = sum_2(p, u);
    let three = sum_3(p, u);
    let four = sum_4(p, u);
    let five = lead(p[5]);
    Row {
        zero,
        one,
        two,
        three,
        four,
        five,
    }
}

// The powers of the curve: each sum, times w^j.
fn curve_powers(q: Row, w: Powers) -> Row
    ensures { (f : ℕ → Ends) (g : Ends) → RowStands 431 f q → PowersStand g w
        → RowStands 753 (λ j. ends.times (f j) (formula.raised ends g j)) result }
{
    let zero = spread::times_number(q.zero, 1.0);
    let one = spread::times(q.one, w.one);
    let two = spread::times(q.two, w.two);
    let three = spread::times(q.three, w.three);
    let four = spread::times(q.four, w.four);
    let five = spread::times(q.five, w.five);
    Row {
        zero,
        one,
        two,
        three,
        four,
        five,
    }
}

// What power 0 and power 1 lose.
#[derive(Clone, Copy)]
pub struct Line {
    pub left: Spread,
    pub rise: Spread,
}

// The powers of curve minus line.
fn without_line(q: Row, line: Line) -> Row
    ensures { (f : ℕ → Ends) (e g : Ends) → RowStands 753 f q → Stands 753 e line.left → Stands 753 g line.rise
        → RowStands 754 (formula.without ends e g f) result }
{
    let two = q.two;
    let three = q.three;
    let four = q.four;
    let five = q.five;
    let zero = spread::subtract(q.zero, line.left);
    let one = spread::subtract(q.one, line.rise);
    Row {
        zero,
        one,
        two,
        three,
        four,
        five,
    }
}

// Bernstein coefficients 1 to 5, from 0's, which every sum begins with.
fn row_1(b: Spread, q: Row) -> Spread
    ensures { (f : ℕ → Ends) → RowStands 754 f q → Stands 760 (formula.bernstein ends f 0) b → Stands 761 (formula.bernstein ends f 1) result }
{
    with_term(b, q.one, 1.0, 5.0)
}

fn row_2(b: Spread, q: Row) -> Spread
    ensures { (f : ℕ → Ends) → RowStands 754 f q → Stands 760 (formula.bernstein ends f 0) b → Stands 762 (formula.bernstein ends f 2) result }
{
    with_term(with_term(b, q.one, 2.0, 5.0), q.two, 1.0, 10.0)
}

fn row_3(b: Spread, q: Row) -> Spread
    ensures { (f : ℕ → Ends) → RowStands 754 f q → Stands 760 (formula.bernstein ends f 0) b → Stands 763 (formula.bernstein ends f 3) result }
{
    let s = with_term(with_term(b, q.one, 3.0, 5.0), q.two, 3.0, 10.0);
    with_term(s, q.three, 1.0, 10.0)
}

fn row_4(b: Spread, q: Row) -> Spread
    ensures { (f : ℕ → Ends) → RowStands 754 f q → Stands 760 (formula.bernstein ends f 0) b → Stands 764 (formula.bernstein ends f 4) result }
{
    let s = with_term(with_term(b, q.one, 4.0, 5.0), q.two, 6.0, 10.0);
    with_term(with_term(s, q.three, 4.0, 10.0), q.four, 1.0, 5.0)
}

fn row_5(b: Spread, q: Row) -> Spread
    ensures { (f : ℕ → Ends) → RowStands 754 f q → Stands 760 (formula.bernstein ends f 0) b → Stands 765 (formula.bernstein ends f 5) result }
{
    let s = with_term(with_term(b, q.one, 5.0, 5.0), q.two, 10.0, 10.0);
    let t = with_term(with_term(s, q.three, 10.0, 10.0), q.four, 5.0, 5.0);
    with_term(t, q.five, 1.0, 1.0)
}

// The largest absolute end over the six Bernstein coefficients.
fn row_figure(q: Row) -> f64
    ensures { (f : ℕ → Ends) → RowStands 754 f q → six_figure (formula.bernstein ends f) ≡ figure result }
{
    let b = first_term(q.zero);
    let most_0 = largest(0.0, b);
    let most_1 = largest(most_0, row_1(b, q));
    let most_2 = largest(most_1, row_2(b, q));
    let most_3 = largest(most_2, row_3(b, q));
    let most_4 = largest(most_3, row_4(b, q));
    largest(most_4, row_5(b, q))
}

// Whether each parameter is at most 2 in size. Here and below the tests are joined by `&`: none waits for
// another, and there is no branch.
fn parameters_within(x: Intersection) -> bool
    ensures { result ≡ true → NearParameters (intersection_of x) }
{
    sizes::within(x.start, 2.0)
        & sizes::within(x.end, 2.0)
        & sizes::within(x.left, 2.0)
        & sizes::within(x.right, 2.0)
        & sizes::within(x.from, 2.0)
        & sizes::within(x.to, 2.0)
}

// Whether the numbers are moderate: the parameters at most 2 in size, coefficients and waypoints 2^100.
fn moderate(x: Intersection) -> bool
    ensures { result ≡ true → Moderate (intersection_of x) }
{
    parameters_within(x)
        & sizes::within(x.first, 1.2676506002282294e30)
        & sizes::within(x.second, 1.2676506002282294e30)
        & sizes::six_within(x.coefficients)
}

// a - b, of two numbers that are read.
fn difference(a: f64, b: f64) -> Spread
    ensures { (k : ℕ) → k ≤ 997 → Number k a → Number k b → Stands (suc k) (ends.minus (ends.number a) (ends.number b)) result }
{
    spread::subtract(spread::single(a), spread::single(b))
}

// The differences of parameters: b - a and s_(i+1) - s_i, which are divided by; left - a, right - left and
// left - s_i.
#[derive(Clone, Copy)]
pub struct Lengths {
    pub segment: Spread,
    pub interval: Spread,
    pub before: Spread,
    pub part: Spread,
    pub since: Spread,
}

fn lengths_of(x: Intersection) -> Lengths
    ensures { NearParameters (intersection_of x) → LengthsStand (intersection_of x) result }
{
    let segment = difference(x.end, x.start);
    let interval = difference(x.to, x.from);
    let before = difference(x.left, x.start);
    let part = difference(x.right, x.left);
    let since = difference(x.left, x.from);
    Lengths {
        segment,
        interval,
        before,
        part,
        since,
    }
}

// Whether no dividend is below 0 and no divisor short.
fn divisible(l: Lengths) -> bool
    ensures { result ≡ true → Divisible l }
{
    (l.segment.below <= -8.673617379884035e-19)
        & (l.interval.below <= -8.673617379884035e-19)
        & (l.before.below <= 0.0)
        & (l.part.below <= 0.0)
        & (l.since.below <= 0.0)
}

// What power 0 and power 1 lose.
fn line_of(x: Intersection, l: Lengths) -> Line
    ensures { Moderate (intersection_of x) → LengthsStand (intersection_of x) l → Divisible l
        → Stands 753 (formula.line_at_left ends (intersection_of x)) result.left × Stands 753 (formula.line_rise ends (intersection_of x)) result.rise }
{
    let interval = l.interval;
    let part = l.part;
    let since = l.since;
    let d = difference(x.second, x.first);
    let left = spread::add(
        spread::single(x.first),
        spread::times(spread::over(since, interval), d),
    );
    let rise = spread::times(spread::over(part, interval), d);
    Line { left, rise }
}

// Six zeros.
fn zeros() -> Row {
    let zero = spread::single(0.0);
    Row {
        zero,
        one: zero,
        two: zero,
        three: zero,
        four: zero,
        five: zero,
    }
}

// The sums of the powers, if `good`; otherwise zeros, which mean nothing. Where the two ways meet, both
// ends of a spread come from the same place, and the compiler takes them through all that follows at once.
fn sums_of(x: Intersection, l: Lengths, good: bool) -> Row
    ensures { good ≡ true → Moderate (intersection_of x) → LengthsStand (intersection_of x) l → Divisible l
        → RowStands 431 (power_sum (at x.coefficients) (formula.offset ends (intersection_of x))) result }
{
    let p = x.coefficients;
    let segment = l.segment;
    let before = l.before;
    if good {
        return sums(p, powers_of(spread::over(before, segment)));
    }
    zeros()
}

// The figure, from the lengths, if `good`.
fn figure_of(x: Intersection, l: Lengths, good: bool) -> f64
    ensures { good ≡ true → Moderate (intersection_of x) → LengthsStand (intersection_of x) l → Divisible l
        → six_figure (formula.difference_bernstein ends (intersection_of x)) ≡ figure result }
{
    let segment = l.segment;
    let part = l.part;
    let w = powers_of(spread::over(part, segment));
    let line = line_of(x, l);
    row_figure(without_line(curve_powers(sums_of(x, l, good), w), line))
}

// The figure of an intersection at depth 0; or none, where its numbers are not moderate, or its intervals
// too short: nothing is known then.
pub(crate) fn quick_figure(x: Intersection) -> Option<f64>
    ensures { (v : Float) → figure_in result ≡ figure v → six_figure (formula.difference_bernstein ends (intersection_of x)) ≡ figure v }
{
    let l = lengths_of(x);
    let good = moderate(x) & divisible(l);
    let f = figure_of(x, l, good);
    if good { Some(f) } else { None }
}
