// The heights of a segment, and of all segments of an axis. The coefficients are bit patterns, as a lane file
// is read into.
ghost use Rattle.std.specs.Prelude.{map, ◌≡◌, ◌+◌, ◌*◌, ◌≤◌, ◌<◌, length, take};
ghost use Rattle.window.specs.Window.{window};
ghost use Rattle.lane_file.specs.Curves.{number_of};
ghost use Rattle.heights.specs.Weights.{weight_table};
ghost use Rattle.heights.specs.Height.{height_of};
ghost use Rattle.heights.specs.Lifted.{lowered, Lifted, ControlsFrom};
ghost use Rattle.heights.specs.Controls.{controls_in};
ghost use Rattle.heights.specs.Sets.{set_with, Sized};
ghost use Rattle.lane_totals.specs.Lanes.{step_totals, axis_totals};
ghost use Rattle.lane_totals.specs.Kept.{totals_in, Kept};

use crate::sums;
use crate::sums::Sums;
use encoding::number;

// The heights of a segment at steps 0 to 255.
fn steps(weights: &[u64], controls: &[u64]) -> Sums
    requires { (weights.now ≡ weight_table) × Lifted controls.now }
    ensures { (totals_in result ≡ step_totals 256 (height_of (map lowered controls.now))) × Kept 0 1 result }
{
    let mut low = 4000000u64;
    let mut high = 0u64;
    let mut sum = 0u64;
    for j in 0..256 {
        let h = heights::height(weights, controls, j);
        low = low.min(h);
        high = high.max(h);
        sum += h;
    }
    Sums {
        lanes: 0,
        segments: 1,
        lowest: low,
        highest: high,
        sum,
        turned_away: 0,
    }
}

// The six coefficients whose patterns stand from a place on, as f64.
fn powers_at(coefficients: &[u64], from: usize) -> [f64; 6]
    requires { from + 6 ≤ length coefficients.now }
    ensures { result ≡ window from (from + 6) (map number_of coefficients.now) }
{
    let mut cells = [0.0; 6];
    for k in 0..6 {
        cells[k] = number(coefficients[from + k]);
    }
    cells
}

// The whole controls, on segment i, of the axis at a place of the m axes of a set.
fn controls_on(
    breaks: &[f64],
    coefficients: &[u64],
    m: usize,
    place: usize,
    i: usize,
) -> Option<[u64; 6]>
    requires { (i + 1 < length breaks.now) × (6 * (i * m + place) + 6 ≤ length coefficients.now) }
    ensures { ControlsFrom (controls_in breaks.now (map number_of coefficients.now) m place i) result }
{
    let powers = powers_at(coefficients, 6 * (i * m + place));
    heights::of_segment(&powers, breaks[i], breaks[i + 1])
}

// The heights of the n segments of the axis at a place of the m axes of a set; turned away by 28.
fn all_segments(
    weights: &[u64],
    breaks: &[f64],
    coefficients: &[u64],
    n: usize,
    m: usize,
    at: usize,
) -> Sums
    requires { Sized n m at breaks.now (map number_of coefficients.now) × (weights.now ≡ weight_table) }
    ensures { (totals_in result ≡ axis_totals (set_with breaks.now (map number_of coefficients.now) n m at))
        × Kept 1 20000 result }
{
    let mut all = sums::one_lane();
    for i in 0..n {
        let Some(cells) = controls_on(breaks, coefficients, m, at, i) else {
            return sums::one_away();
        };
        let one = steps(weights, &cells);
        all = sums::merged(all, one);
    }
    all
}

// The same of a set in the first cells of the slices: n + 1 breaks, and the coefficients with the widths
// behind them.
pub(crate) fn of_set(
    weights: &[u64],
    breaks: &[f64],
    coefficients: &[u64],
    n: usize,
    m: usize,
    at: usize,
) -> Sums
    requires at_lt_m { (at < m) × (m ≤ 16) × (n ≤ 20000) × (n + 1 ≤ length breaks.now) × (6 * (n * m) + n ≤ length coefficients.now) }
    requires weights_value { weights.now ≡ weight_table }
    ensures { (totals_in result ≡ axis_totals (set_with (take (n + 1) breaks.now)
        (map number_of (take (6 * (n * m) + n) coefficients.now)) n m at)) × Kept 1 20000 result }
{
    let last = n + 1;
    let end = 6 * (n * m) + n;
    all_segments(weights, &breaks[0..last], &coefficients[0..end], n, m, at)
}
