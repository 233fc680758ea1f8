// The elements that a rule keeps, moved to the front.
ghost use Rattle.std.specs.Prelude.{◌≡◌, ◌++◌, length, drop, Bool, Float, Option, None};
ghost use Rattle.sorting.specs.Thin.{thinned, distinct, inside, apart, dedup_of, kept_of};

// The `gap` of the source's `seed`: 128 times 2^-52.
const GAP: f64 = 128.0 * 2.220446049250313e-16;

// Whether x is over the gap from 0 and from 1.
fn is_inside(x: f64) -> bool
    ensures { result ≡ inside x }
{
    GAP < x && x < 1.0 - GAP
}

// Whether x differs from the last one kept, if there is one.
fn is_distinct(last: Option<f64>, x: f64) -> bool
    ensures { result ≡ distinct last x }
{
    last.is_none_or(|v| x != v)
}

// Whether x is over the gap from 0, from 1, and from the last one kept, if there is one.
fn is_apart(last: Option<f64>, x: f64) -> bool
    ensures { result ≡ apart last x }
{
    is_inside(x) && last.is_none_or(|v| GAP < x - v)
}

// The elements that `keeps` keeps, which is told the last one kept, if there is one, and the element;
// they move to the front, and the cells after these are unchanged. How many they are.
fn thin<F: Fn(Option<f64>, f64) -> bool>(s: &mut [f64], keeps: F) -> usize
    requires { F.IsAlwaysCallable keeps }
    ensures { (test : Option Float → Float → Bool)
        → ((last : Option Float) (x : Float) (b : Bool) → F.post keeps last x b → b ≡ test last x)
        → (result ≡ length (thinned test None s.old))
        × (s.new ≡ thinned test None s.old ++ drop result s.old) }
{
    let mut last = None;
    let mut kept = 0;
    for i in 0..s.len() {
        let x = s[i];
        if keeps(last, x) {
            s[kept] = x;
            kept += 1;
            last = Some(x);
        }
    }
    kept
}

// Of equal neighbours the first, and how many are left; the cells after these are unchanged.
pub fn dedup(s: &mut [f64]) -> usize
    ensures value { result ≡ length (dedup_of s.old) }
    ensures s_after { s.new ≡ dedup_of s.old ++ drop result s.old }
{
    thin(s, |last, x| is_distinct(last, x))
}

// The cells over the gap from 0, from 1 and from the last one kept, and how many they are; the cells
// after these are unchanged.
pub fn keep_apart(s: &mut [f64]) -> usize
    ensures value { result ≡ length (kept_of s.old) }
    ensures s_after { s.new ≡ kept_of s.old ++ drop result s.old }
{
    thin(s, |last, x| is_apart(last, x))
}
