// The parameters of n waypoints, listed or spaced by a rule, and normalised to 0 to 1. Under the rule
// of chords a parameter is a sum of all chords before it: so parameters are gone through from the first
// on, each made from the one before it.
ghost use Rattle.std.specs.Prelude.{false, not, ◌||◌, ◌≡◌, List, ℕ, ◌+◌, ◌-◌, ◌*◌, ◌≤◌, ◌<◌, eqb, Float, length};
ghost use Rattle.std.specs.Float.Ieee.{le};
ghost use Rattle.std.specs.Float.Ieee.Scale.{finite};
ghost use Rattle.window.specs.Cells.{at};
ghost use Rattle.request.specs.declared.parameters.Spacing.TheVariants.{Listed};
ghost use Rattle.request.specs.Parameters.{even_of, sum_of, chord_length, parameter_list, any_fall, length_of, normalised_of, RangeUnless, misplaced, unreliable};
ghost use Rattle.request.specs.Any.{any};

// Where the parameters come from: a list, which stands beside it, or the rule of spacing, whose version 1
// is even and whose version 2 goes by the chords.
#[derive(Clone, Copy)]
pub enum Spacing {
    Listed,
    Even,
    Chord,
}

// Parameter i of n even ones.
fn even_at(n: usize, i: usize) -> f64
    requires { (2 ≤ n) × (n ≤ 20000) × (i < n) }
    ensures { result ≡ even_of n i }
{
    (i as u32) as f64 / ((n - 1) as u32) as f64
}

// The chord from waypoint i to the next.
#[tactic(auto, using(crate::proofs::Spaced::sum_next), unfolding(crate::specs::Parameters::sum_of, crate::specs::Parameters::square_of, crate::specs::Parameters::chord_length))]
fn chord_from(points: &[f64], d: usize, i: usize) -> f64
    requires { (i < 20000) × ((i + 1) * d + d ≤ length points.now) }
    ensures { result ≡ chord_length points.now d i }
{
    let from = i * d;
    let to = (i + 1) * d;
    let mut sum = 0.0;
    for row in 0..d {
        let x = points[to + row] - points[from + row];
        sum += x * x;
    }
    float::sqrt(sum)
}

// The sum of the first chords.
#[tactic(auto, using(crate::proofs::Spaced::sum_next), unfolding(crate::specs::Parameters::sum_of))]
fn chords(points: &[f64], d: usize, count: usize) -> f64
    requires { (count ≤ 20000) × ((count + 1) * d ≤ length points.now) }
    ensures { result ≡ sum_of count (chord_length points.now d) }
{
    let mut sum = 0.0;
    for i in 0..count {
        sum += chord_from(points, d, i);
    }
    sum
}

// The first parameter, whatever the points.
pub fn first(spacing: Spacing, list: &[f64], n: usize) -> f64
    requires { (2 ≤ n) × (n ≤ 20000) × (spacing ≡ Listed → n ≤ length list.now) }
    ensures { (points : List Float) (d : ℕ) → result ≡ at (parameter_list spacing list.now points d n) 0 }
{
    match spacing {
        Spacing::Listed => list[0],
        Spacing::Even => even_at(n, 0),
        Spacing::Chord => 0.0,
    }
}

// The parameter after parameter i, which is `current`.
pub fn following(
    spacing: Spacing,
    list: &[f64],
    points: &[f64],
    d: usize,
    n: usize,
    i: usize,
    current: f64,
) -> f64
    requires n_bound { (n ≤ 20000) × (n * d ≤ length points.now) × (i + 1 < n) × (spacing ≡ Listed → n ≤ length list.now) }
    requires current_value { current ≡ at (parameter_list spacing list.now points.now d n) i }
    ensures { result ≡ at (parameter_list spacing list.now points.now d n) (i + 1) }
{
    match spacing {
        Spacing::Listed => list[i + 1],
        Spacing::Even => even_at(n, i + 1),
        Spacing::Chord => current + chord_from(points, d, i),
    }
}

// The same; after the last parameter there is none, and it does not matter.
pub fn next(
    spacing: Spacing,
    list: &[f64],
    points: &[f64],
    d: usize,
    n: usize,
    i: usize,
    current: f64,
) -> f64
    requires n_bound { (n ≤ 20000) × (n * d ≤ length points.now) × (i < n) × (spacing ≡ Listed → n ≤ length list.now) }
    requires current_value { current ≡ at (parameter_list spacing list.now points.now d n) i }
    ensures { i + 1 < n → result ≡ at (parameter_list spacing list.now points.now d n) (i + 1) }
{
    if i + 1 < n {
        following(spacing, list, points, d, n, i, current)
    } else {
        current
    }
}

// The last parameter.
pub fn last(spacing: Spacing, list: &[f64], points: &[f64], d: usize, n: usize) -> f64
    requires { (2 ≤ n) × (n ≤ 20000) × (n * d ≤ length points.now) × (spacing ≡ Listed → n ≤ length list.now) }
    ensures { result ≡ at (parameter_list spacing list.now points.now d n) (n - 1) }
{
    match spacing {
        Spacing::Listed => list[n - 1],
        Spacing::Even => even_at(n, n - 1),
        Spacing::Chord => chords(points, d, n - 1),
    }
}

// Whether the list has another number of parameters than n.
fn miscounted(spacing: Spacing, list: &[f64], n: usize) -> bool
    ensures { (points : List Float) (d : ℕ) → result ≡ not (eqb (length (parameter_list spacing list.now points d n)) n) }
{
    match spacing {
        Spacing::Listed => list.len() != n,
        Spacing::Even => false,
        Spacing::Chord => false,
    }
}

// Whether x is infinite, a NaN, or at or below the one before it.
fn is_misplaced(previous: f64, x: f64) -> bool
    ensures { result ≡ (not (finite x) || le x previous) }
{
    !float::is_finite(x) || x <= previous
}

// The last parameter less the first, unless one is infinite or a NaN, or at or below the one before it: gone through once.
fn tested(spacing: Spacing, list: &[f64], points: &[f64], d: usize, n: usize) -> Option<f64>
    requires { (2 ≤ n) × (n ≤ 20000) × (n * d ≤ length points.now) × (spacing ≡ Listed → n ≤ length list.now) }
    ensures { RangeUnless (any n (λ i. not (finite (at (parameter_list spacing list.now points.now d n) i)))
        || any_fall n (at (parameter_list spacing list.now points.now d n)))
        (length_of (parameter_list spacing list.now points.now d n) n) result }
{
    let start = first(spacing, list, n);
    if !float::is_finite(start) {
        return None;
    }
    let mut previous = start;
    for i in 0..n - 1 {
        let x = following(spacing, list, points, d, n, i, previous);
        if is_misplaced(previous, x) {
            return None;
        }
        previous = x;
    }
    Some(previous - start)
}

// The range of the parameters, the last less the first, unless they are refused (5).
pub fn placed(spacing: Spacing, list: &[f64], points: &[f64], d: usize, n: usize) -> Option<f64>
    requires { (2 ≤ n) × (n ≤ 20000) × (n * d ≤ length points.now) }
    ensures { RangeUnless (misplaced (parameter_list spacing list.now points.now d n) n)
        (length_of (parameter_list spacing list.now points.now d n) n) result }
{
    if miscounted(spacing, list, n) {
        return None;
    }
    tested(spacing, list, points, d, n)
}

// Whether a normalised parameter is at or below the one before it.
fn falls(spacing: Spacing, list: &[f64], points: &[f64], d: usize, n: usize, range: f64) -> bool
    requires le_n { (2 ≤ n) × (n ≤ 20000) × (n * d ≤ length points.now) × (spacing ≡ Listed → n ≤ length list.now) }
    requires range_value { range ≡ length_of (parameter_list spacing list.now points.now d n) n }
    ensures { result ≡ any_fall n (normalised_of (parameter_list spacing list.now points.now d n) n) }
{
    let start = first(spacing, list, n);
    let mut current = start;
    let mut previous = (start - start) / range;
    for i in 0..n - 1 {
        current = following(spacing, list, points, d, n, i, current);
        let x = (current - start) / range;
        if x <= previous {
            return true;
        }
        previous = x;
    }
    false
}

// Whether their range is refused (6).
#[tactic(auto, unfolding(crate::specs::Parameters::unreliable))]
pub fn unreliable(
    spacing: Spacing,
    list: &[f64],
    points: &[f64],
    d: usize,
    n: usize,
    range: f64,
) -> bool
    requires le_n { (2 ≤ n) × (n ≤ 20000) × (n * d ≤ length points.now) × (spacing ≡ Listed → n ≤ length list.now) }
    requires range_value { range ≡ length_of (parameter_list spacing list.now points.now d n) n }
    ensures { result ≡ unreliable (parameter_list spacing list.now points.now d n) n }
{
    !float::is_finite(range) || falls(spacing, list, points, d, n, range)
}
