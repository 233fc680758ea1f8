// One waypoint interval: the pieces that it has in common with the segments, one after the other.
ghost use Rattle.std.specs.Prelude.{◌≡◌, ◌+◌, ◌-◌, ◌*◌, ◌≤◌, ◌<◌, length, IfOk};
ghost use Rattle.polynomial.specs.Outcome.{refusal_number};
ghost use Rattle.polynomial.specs.Interval.{Finds, Ends, found, piece_at, axes_of, interval_of};

use crate::piece;
use crate::piece::{Largest, Piece};

// Why an audit ends before its last interval: the right end of a piece is not above the left (document 01's
// 12), or a Bernstein coefficient is not finite (13).
#[derive(Clone, Copy, Debug, PartialEq, Eq)]
pub enum Unaudited {
    NotAbove,
    NotFinite,
}

impl Unaudited {
    // Document 01's number.
    pub fn number(self) -> usize
        ensures { result ≡ refusal_number self }
    {
        match self {
            Unaudited::NotAbove => 12,
            Unaudited::NotFinite => 13,
        }
    }
}

// What was found so far beside the bounds: the largest absolute coefficient of all axes, and the middle
// of the piece that it is of.
#[derive(Clone, Copy)]
pub struct Peak {
    pub peak: f64,
    pub witness: f64,
}

// An audited interval: its witness, and the last segment that was used.
#[derive(Clone, Copy)]
pub struct Ended {
    pub witness: f64,
    pub span: usize,
}

// The piece from `left` to `right`, in segment `span` and interval i.
#[tactic(auto, unfolding(crate::specs::Interval::piece_at, crate::specs::Piece::piece_from))]
fn place(breaks: &[f64], s: &[f64], i: usize, span: usize, left: f64, right: f64) -> Piece
    requires { (span + 1 < length breaks.now) × (i + 1 < length s.now) }
    ensures { result ≡ piece_at breaks.now s.now i span left right }
{
    let h = breaks[span + 1] - breaks[span];
    let l = s[i + 1] - s[i];
    Piece {
        u: (left - breaks[span]) / h,
        w: (right - left) / h,
        before: (left - s[i]) / l,
        part: (right - left) / l,
        middle: (left + right) / 2.0,
    }
}

// All d axes on a piece. The segment's first axis is number `first` of all axes of all segments, and
// the first coordinate of the interval's waypoint stands at `row`.
fn axes(
    bounds: &mut [f64],
    coefficients: &[f64],
    y: &[f64],
    d: usize,
    first: usize,
    row: usize,
    q: Piece,
    f: Peak,
) -> Result<Peak, Unaudited>
    requires { (length bounds.old ≡ d) × (6 * (first + d) ≤ length coefficients.now) × (row + d + d ≤ length y.now) }
    ensures { Finds bounds.new result (axes_of coefficients.now y.now d first row q (found bounds.old f)) }
{
    let mut peak = f.peak;
    let mut witness = f.witness;
    for axis in 0..d {
        let from = 6 * (first + axis);
        let to = from + 6;
        let b = piece::error_form(&coefficients[from..to], y[row + axis], y[row + d + axis], q);
        if !piece::all_finite(b) {
            return Err(Unaudited::NotFinite);
        }
        let before = Largest {
            bound: bounds[axis],
            peak,
            witness,
        };
        let l = piece::take_in(b, q.middle, before);
        bounds[axis] = l.bound;
        peak = l.peak;
        witness = l.witness;
    }
    Ok(Peak { peak, witness })
}

// Interval i, from segment `span` on, where its witness was `before`. Its bounds go to `bounds`, which has
// a cell for each of d axes.
pub(crate) fn audit_interval(
    bounds: &mut [f64],
    breaks: &[f64],
    coefficients: &[f64],
    s: &[f64],
    y: &[f64],
    d: usize,
    i: usize,
    span: usize,
    before: f64,
) -> Result<Ended, Unaudited>
    requires { (length bounds.old ≡ d) × (span + 1 < length breaks.now)
        × ((length breaks.now - 1) * (6 * d) ≤ length coefficients.now)
        × (i + 1 < length s.now) × (i * d + d + d ≤ length y.now) }
    ensures ends { Ends bounds.new result (interval_of breaks.now coefficients.now s.now y.now d i span before) }
    ensures inside { IfOk result (λ ended. ended.span + 1 < length breaks.now) }
{
    window::clear(bounds);
    let end = s[i + 1];
    let mut left = s[i];
    let mut k = span;
    let mut f = Peak {
        peak: -1.0,
        witness: before,
    };
    // From piece to piece: the next begins where one ends, and no index is counted.
    while left < end {
        k = crate::span::advance(breaks, left, k);
        let right = float::min(end, breaks[k + 1]);
        if right <= left {
            return Err(Unaudited::NotAbove);
        }
        let q = place(breaks, s, i, k, left, right);
        f = axes(bounds, coefficients, y, d, k * d, i * d, q, f)?;
        left = right;
    }
    Ok(Ended {
        witness: f.witness,
        span: k,
    })
}
