// How many cells a curve's parts have.
ghost use Rattle.std.specs.Prelude.{◌≡◌, ◌≤◌};
ghost use Rattle.listing.specs.Sizes.{rows_of, breaks_of};

// Six coefficients for each of d axes on each of n segments, and the width of each segment; none above
// document 01's domain.
pub fn rows(d: usize, n: usize) -> usize
    ensures value { result ≡ rows_of d n }
    ensures upper_bound { result ≤ 1940000 }
{
    if 16 < d || 20000 < n {
        return 0;
    }
    6 * (n * d) + n
}

// The breaks of n segments: none without segments, and none above the domain.
pub fn breaks(n: usize) -> usize
    ensures value { result ≡ breaks_of n }
    ensures upper_bound { result ≤ 20001 }
{
    if n == 0 || 20000 < n {
        return 0;
    }
    n + 1
}
