// The six basis functions that are not zero on a span: their values at a parameter, and their
// powers about it.
ghost use Rattle.std.specs.Prelude.{◌≡◌, ◌+◌, ◌≤◌, ◌<◌, length};
ghost use Rattle.arith.specs.Operations.{floats};
ghost use Rattle.bspline.specs.Values.{inner_loop, values_of};
ghost use Rattle.bspline.specs.Powers.{previous_of, expand, put_row, degree_turn, powers_of};

// What a row gives to the row in its place, and to the one after it.
#[derive(Clone, Copy)]
struct Expanded {
    next: [f64; 6],
    upper: [f64; 6],
}

// The values of degree j from those of degree j - 1.
fn raise(b: &mut [f64; 6], left: &[f64; 6], right: &[f64; 6], j: usize)
    requires { j < 6 }
    ensures { b.new ≡ inner_loop floats left.now right.now j b.old }
{
    let mut saved = 0.0;
    for r in 0..j {
        let v = b[r] / (right[r + 1] + left[j - r]);
        b[r] = saved + right[r + 1] * v;
        saved = left[j - r] * v;
    }
    b[j] = saved;
}

// The six functions of the span, at x.
pub fn values(t: &[f64], span: usize, x: f64) -> [f64; 6]
    requires { (4 ≤ span) × (span + 5 < length t.now) }
    ensures { result ≡ values_of floats t.now span x }
{
    let mut b = [0.0; 6];
    b[0] = 1.0;
    let mut left = [0.0; 6];
    let mut right = [0.0; 6];
    for j in 1..6 {
        left[j] = x - t[span + 1 - j];
        right[j] = t[span + j] - x;
        raise(&mut b, &left, &right, j);
    }
    b
}

// The coefficient before k of the row at `at`, over den; zero before the first.
#[tactic(auto, unfolding(crate::specs::Powers::previous_of))]
fn previous(b: &[f64; 36], at: usize, k: usize, den: f64) -> f64
    requires { at + k ≤ 36 }
    ensures { result ≡ previous_of floats b.now at k den }
{
    if 0 < k { b[at + k - 1] / den } else { 0.0 }
}

// What the row at `at`, of degree j - 1, gives to two rows of degree j.
fn expand_row(
    b: &[f64; 36],
    at: usize,
    saved: &[f64; 6],
    left: f64,
    right: f64,
    j: usize,
) -> Expanded
    requires { (at + 6 ≤ 36) × (j < 6) }
    ensures { (result.next ≡ (expand floats b.now at saved.now left right j).next)
        × (result.upper ≡ (expand floats b.now at saved.now left right j).upper) }
{
    let den = left + right;
    let mut next = [0.0; 6];
    let mut upper = [0.0; 6];
    for k in 0..j + 1 {
        let v = b[at + k] / den;
        let prev = previous(b, at, k, den);
        next[k] = saved[k] + right * v - prev;
        upper[k] = left * v + prev;
    }
    Expanded { next, upper }
}

// The row at `at` becomes `row`.
fn put_row(b: &mut [f64; 36], at: usize, row: &[f64; 6])
    requires { at + 6 ≤ 36 }
    ensures { b.new ≡ put_row floats b.old at row.now }
{
    b[at..at + 6].copy_from_slice(row);
}

// The table of degree j from that of degree j - 1.
fn raise_rows(t: &[f64], span: usize, x: f64, j: usize, b: &mut [f64; 36])
    requires { (4 ≤ span) × (span + 5 < length t.now) × (1 ≤ j) × (j < 6) }
    ensures { b.new ≡ degree_turn floats t.now span x j b.old }
{
    let mut saved = [0.0; 6];
    for r in 0..j {
        let left = x - t[span + 1 - j + r];
        let right = t[span + r + 1] - x;
        let p = expand_row(b, 6 * r, &saved, left, right, j);
        let next = p.next;
        put_row(b, 6 * r, &next);
        saved = p.upper;
    }
    put_row(b, 6 * j, &saved);
}

// The six functions of the span as powers about x: the six coefficients of function i from 6 * i on.
pub fn powers(t: &[f64], span: usize, x: f64) -> [f64; 36]
    requires { (4 ≤ span) × (span + 5 < length t.now) }
    ensures { result ≡ powers_of floats t.now span x }
{
    let mut b = [0.0; 36];
    b[0] = 1.0;
    for j in 1..6 {
        raise_rows(t, span, x, j, &mut b);
    }
    b
}
