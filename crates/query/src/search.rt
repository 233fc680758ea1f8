// The segment in which a parameter lies, found without a branch that depends on the parameter.
ghost use Rattle.std.specs.Prelude.{◌≡◌, true, false, ◌+◌, ◌-◌, ◌*◌, ◌≤◌, ◌<◌, length};
ghost use Rattle.std.specs.Float.Ieee.{lt, le};
ghost use Rattle.window.specs.Cells.{+0, at};
ghost use Rattle.polynomial.specs.Span.{break_span};
ghost use Rattle.query.specs.Search.{RisingBreaks, Found};

// 1 where v is at or below x, and 0 where it is above: numbers above 0 are in the order of their bits.
// A v of -0 gives 0.
fn at_or_below(v: f64, x: f64) -> usize
    requires { (le +0 v ≡ true) × (lt +0 x ≡ true) }
    ensures { (result ≤ 1) × (result ≡ 1 → le v x ≡ true) × (result ≡ 0 → lt +0 v ≡ true → le v x ≡ false) }
{
    let top = f64::to_bits(x) + 0x8000_0000_0000_0000;
    ((top - f64::to_bits(v)) >> 63) as usize
}

// How many of the m - 1 breaks that follow the one at base, `step` apart, are at or below x.
fn passed(breaks: &[f64], x: f64, base: usize, step: usize, m: usize) -> usize
    requires { RisingBreaks breaks.now × (lt +0 x ≡ true) × (1 ≤ step) × (1 ≤ m)
        × (base + (m - 1) * step < length breaks.now) }
    ensures { (result < m) × (1 ≤ result → le (at breaks.now (base + result * step)) x ≡ true)
        × (result + 1 < m → le (at breaks.now (base + (result + 1) * step)) x ≡ false) }
{
    let mut c = 0;
    for j in 1..m {
        c += at_or_below(breaks[base + j * step], x);
    }
    c
}

// The segment of x, above 0: of those that are left a quarter is kept, until there are three or fewer.
fn quarter(breaks: &[f64], x: f64) -> usize
    requires { RisingBreaks breaks.now × (lt +0 x ≡ true) × (2 ≤ length breaks.now) }
    ensures { Found breaks.now x result }
{
    let mut base = 0;
    let mut size = breaks.len() - 1;
    // What is left shrinks to a quarter in each turn: no index is counted.
    while 3 < size {
        let step = size / 4;
        base += step * passed(breaks, x, base, step, 4);
        size -= 3 * step;
    }
    base + passed(breaks, x, base, 1, size)
}

// The segment of x; `near` is tried first, since the next parameter often lies where the last one did.
pub fn span(breaks: &[f64], x: f64, near: usize) -> usize
    requires { RisingBreaks breaks.now × (near + 1 < length breaks.now) }
    ensures { result ≡ break_span breaks.now x }
{
    if 0.0 < x {
        if at_or_below(breaks[near + 1], x) < at_or_below(breaks[near], x) {
            return near;
        }
        return quarter(breaks, x);
    }
    0
}
