// The segment in which a parameter lies.
ghost use Rattle.std.specs.Prelude.{◌≡◌, ◌+◌, ◌≤◌, ◌<◌, length};
ghost use Rattle.polynomial.specs.Span.{break_span, advanced};

// The segment of x among the breaks: the last whose left break is at or below x, the first where
// there is none, and never past the last.
pub fn span(breaks: &[f64], x: f64) -> usize
    ensures { result ≡ break_span breaks.now x }
{
    let p = bspline::search::partition_point_le(breaks, x);
    p.saturating_sub(1).min(breaks.len().saturating_sub(2))
}

// The span moved on while it is not the last and its right break is at or below `left`.
pub fn advance(breaks: &[f64], left: f64, span: usize) -> usize
    requires { span + 1 < length breaks.now }
    ensures { (result ≡ advanced breaks.now left span) × (span ≤ result) × (result + 1 < length breaks.now) }
{
    let n = breaks.len() - 1;
    let mut k = span;
    // As the source has it: a chain that skips breaks and counts them is no plainer.
    while k + 1 < n && breaks[k + 1] <= left {
        k += 1;
    }
    k
}
