// Where a parameter lies among knots or breaks.
ghost use Rattle.std.specs.Prelude.{◌≡◌, Bool, Float};
ghost use Rattle.std.specs.Float.{nan};
ghost use Rattle.std.specs.Float.Ieee.{le, lt};
ghost use Rattle.arith.specs.Operations.{floats};
ghost use Rattle.bspline.specs.Search.{partition_point, span_of};

// How many leading elements pass: Rust's bisection, step by step, since a list may hold a NaN, and the
// library's `partition_point` promises a place only for a list that is partitioned.
fn bisect<F: Fn(f64) -> bool>(list: &[f64], passes: F) -> usize
    requires { F.IsAlwaysCallable passes }
    ensures { (test : Float → Bool) → ((v : Float) (b : Bool) → F.post passes v b → b ≡ test v)
        → result ≡ partition_point nan test list.now }
{
    if list.is_empty() {
        return 0;
    }
    let mut base = 0;
    let mut size = list.len();
    while 1 < size {
        let half = size / 2;
        if passes(list[base + half]) {
            base += half;
        }
        size -= half;
    }
    if passes(list[base]) { base + 1 } else { base }
}

// How many leading elements are at or below x: `list.partition_point(|v| *v <= x)`.
pub fn partition_point_le(list: &[f64], x: f64) -> usize
    ensures { result ≡ partition_point nan (λ v. le v x) list.now }
{
    bisect(list, |v| v <= x)
}

// How many leading elements are below x: `list.partition_point(|v| *v < x)`.
pub fn partition_point_lt(list: &[f64], x: f64) -> usize
    ensures { result ≡ partition_point nan (λ v. lt v x) list.now }
{
    bisect(list, |v| v < x)
}

// The span of x among the knots `t` of a spline with m controls, at least 5 and at most m - 1.
pub fn span(t: &[f64], m: usize, x: f64) -> usize
    ensures { result ≡ span_of floats t.now m x }
{
    partition_point_le(t, x)
        .saturating_sub(1)
        .min(m.saturating_sub(1))
        .max(5)
}
