// Totals, as they are kept: each height as the number by which it lies above -2,000,000.
ghost use Rattle.std.specs.Prelude.{◌≡◌};
ghost use Rattle.lane_totals.specs.Totals.{nothing, away, lane};
ghost use Rattle.lane_totals.specs.Kept.{totals_in, Kept, merged_of, Small};

// The number of lanes, of their segments, the lowest and the highest height, the sum of all heights, and
// the number of lanes turned away.
#[derive(Clone, Copy)]
pub struct Sums {
    pub lanes: u64,
    pub segments: u64,
    pub lowest: u64,
    pub highest: u64,
    pub sum: u64,
    pub turned_away: u64,
}

// No lanes.
pub fn none() -> Sums
    ensures { (totals_in result ≡ nothing) × Kept 0 0 result }
{
    Sums {
        lanes: 0,
        segments: 0,
        lowest: 4000000,
        highest: 0,
        sum: 0,
        turned_away: 0,
    }
}

// A lane that is turned away.
pub fn one_away() -> Sums
    ensures { (totals_in result ≡ away) × Kept 1 0 result }
{
    Sums {
        lanes: 0,
        segments: 0,
        lowest: 4000000,
        highest: 0,
        sum: 0,
        turned_away: 1,
    }
}

// A lane that counts, before its first segment.
pub fn one_lane() -> Sums
    ensures { (totals_in result ≡ lane) × Kept 1 0 result }
{
    Sums {
        lanes: 1,
        segments: 0,
        lowest: 4000000,
        highest: 0,
        sum: 0,
        turned_away: 0,
    }
}

// The totals of both.
pub fn merged(a: Sums, b: Sums) -> Sums
    requires { Small a × Small b }
    ensures { result ≡ merged_of a b }
{
    Sums {
        lanes: a.lanes + b.lanes,
        segments: a.segments + b.segments,
        lowest: a.lowest.min(b.lowest),
        highest: a.highest.max(b.highest),
        sum: a.sum + b.sum,
        turned_away: a.turned_away + b.turned_away,
    }
}
