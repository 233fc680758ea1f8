// The checks that turn a request away before anything is computed, and those of what is put first.
ghost use Rattle.std.specs.Prelude.{◌≡◌, not, ◌||◌, ℕ, ◌*◌, ◌≤◌, ◌<◌, length, true, false};
ghost use Rattle.std.specs.Float.Ieee.Scale.{finite};
ghost use Rattle.window.specs.Cells.{at};
ghost use Rattle.request.specs.Any.{any};
ghost use Rattle.request.specs.Parameters.{any_fall};
ghost use Rattle.smoothing.specs.Request.{axis_count};
ghost use Rattle.smoothing.specs.Checks.{wide_lane, wide_limits, short_room, bad_axes, bad_tolerance, exceeds, too_fine};
ghost use Rattle.checks.specs.Request.{limits_of, lane_of};
ghost use Rattle.checks.specs.Checks.{bad_cell, room_in, refusal_first, refusal_before, number_of};

use crate::choices::{chosen, count_of, tolerances_of};
use crate::{Refusal, Request, Room, Tolerance};

// Whether a size is above the domain (18).
#[tactic(auto, unfolding(smoothing::specs::Checks::wide_lane, smoothing::specs::Checks::wide_limits))]
fn is_wide(r: &Request) -> bool
    ensures { result ≡ (wide_lane (lane_of r.now) || wide_limits (limits_of r.now.limits)) }
{
    16 < r.d || 20000 < r.n || 20000 < r.limits.segments || 200 < r.limits.refinements
}

// Whether a lent slice is too short (19).
#[tactic(auto, unfolding(smoothing::specs::Checks::short_room))]
fn is_short(room: Room, r: &Request) -> bool
    requires { (r.now.d ≤ 16) × (r.now.n ≤ 20000) × (r.now.limits.segments ≤ 20000) }
    ensures { result ≡ short_room (room_in room) (lane_of r.now) (limits_of r.now.limits) }
{
    let segments = r.limits.segments;
    let e = r.n.max(segments) + 16;
    room.work < e * (16 * r.d + 32)
        || room.breaks < segments + 1
        || room.coefficients < segments * (6 * r.d) + segments
        || room.other_breaks < r.n
        || room.other_coefficients < r.n * (6 * r.d) + r.n
        || room.errors < r.d
}

// The first of the refusals 18, 20 and 19 that holds, where slices of these lengths are lent.
pub fn refusal_first(r: &Request, room: Room) -> Result<(), Refusal>
    ensures { number_of result ≡ refusal_first (room_in room) (lane_of r.now) (limits_of r.now.limits) }
{
    if is_wide(r) {
        return Err(Refusal::AboveDomain);
    }
    if r.points.len() != r.d * r.n {
        return Err(Refusal::PointCells);
    }
    if is_short(room, r) {
        return Err(Refusal::ShortSlice);
    }
    Ok(())
}

// Whether a tolerance is infinite, a NaN or not above 0.
fn is_bad(x: f64) -> bool
    ensures { result ≡ bad_cell x }
{
    !float::is_finite(x) || x <= 0.0
}

// Whether a cell is at or below the one before it.
fn falls(s: &[f64]) -> bool
    ensures { result ≡ any_fall (length s.now) (at s.now) }
{
    for i in 1..s.len() {
        if s[i] <= s[i - 1] {
            return true;
        }
    }
    false
}

// Whether the smoothed axes are refused (3). More than d axes can't be distinct and below d.
fn bad_axes(r: &Request) -> bool
    requires { r.now.d ≤ 16 }
    ensures { result ≡ bad_axes (lane_of r.now) }
{
    if r.d < count_of(r.axes, r.d) {
        return true;
    }
    let c = chosen(r.axes, r.d);
    !curve::form::axes_formed(&c.axes, c.count, r.d)
}

// Whether the tolerances of k axes are refused (4).
fn bad_tolerance(r: &Request, k: usize) -> bool
    requires { (0 < k) × (axis_count (lane_of r.now) ≡ k) }
    ensures { result ≡ bad_tolerance (lane_of r.now) }
{
    match r.tolerance {
        Tolerance::Uniform(x) => is_bad(x),
        Tolerance::PerAxis(list) => {
            if list.len() != k {
                return true;
            }
            list.iter().any(|x| is_bad(*x))
        }
    }
}

// Whether a coordinate of the row `axis`, of n points of d rows, exceeds `most`.
fn exceeds(points: &[f64], d: usize, n: usize, axis: usize, most: f64) -> bool
    requires { (axis < d) × (d ≤ 16) × (n ≤ 20000) × (n * d ≤ length points.now) }
    ensures { result ≡ exceeds points.now d n axis most }
{
    for i in 0..n {
        if most < float::abs(points[i * d + axis]) {
            return true;
        }
    }
    false
}

// Whether a tolerance is too fine for the coordinates of its axis (26): one of them exceeds the tolerance
// times 2^48.
fn too_fine(r: &Request) -> bool
    requires points { (r.now.d ≤ 16) × (r.now.n ≤ 20000) × (r.now.n * r.now.d ≤ length r.now.points.now) }
    requires axes { bad_axes (lane_of r.now) ≡ false }
    requires tolerances { bad_tolerance (lane_of r.now) ≡ false }
    ensures { result ≡ too_fine (lane_of r.now) }
{
    let c = chosen(r.axes, r.d);
    let bounds = tolerances_of(r.tolerance, c.count);
    for a in 0..c.count {
        if exceeds(r.points, r.d, r.n, c.axes[a], bounds[a] * 281474976710656.0) {
            return true;
        }
    }
    false
}

// The first of the refusals 1 to 4, 26 and 5 that holds.
pub fn refusal_before(r: &Request) -> Result<(), Refusal>
    requires { (r.now.d ≤ 16) × (r.now.n ≤ 20000) × (r.now.n * r.now.d ≤ length r.now.points.now) }
    ensures { number_of result ≡ refusal_before (lane_of r.now) }
{
    if request::points::unfit(r.d, r.n, r.points) {
        return Err(Refusal::BadPoints);
    }
    let k = count_of(r.axes, r.d);
    if k < 1 {
        return Err(Refusal::NoAxes);
    }
    if bad_axes(r) {
        return Err(Refusal::BadAxes);
    }
    if bad_tolerance(r, k) {
        return Err(Refusal::BadTolerance);
    }
    if too_fine(r) {
        return Err(Refusal::ToleranceTooFine);
    }
    match request::parameters::placed(r.spacing, r.parameters, r.points, r.d, r.n) {
        Some(_) => Ok(()),
        None => Err(Refusal::BadParameters),
    }
}

// Whether the normalised parameters s are refused (6), which lie `range` apart before that.
pub fn is_unreliable(range: f64, s: &[f64]) -> bool
    ensures { result ≡ (not (finite range) || any_fall (length s.now) (at s.now)) }
{
    !float::is_finite(range) || falls(s)
}

// Whether a centred coordinate over its tolerance is not finite (7).
pub fn is_overflowing(y: &[f64]) -> bool
    ensures { result ≡ any (length y.now) (λ i. not (finite (at y.now i))) }
{
    y.iter().any(|x| !float::is_finite(*x))
}
