// One axis on one piece of a segment: the error's power coefficients on the piece, its Bernstein
// coefficients, and the largest of these.
ghost use Rattle.std.specs.Prelude.{◌≡◌, true, ◌&&◌, cond, ◌+◌, ◌<◌, length};
ghost use Rattle.arith.specs.Operations.{floats};
ghost use Rattle.arith.specs.Loop.{each};
ghost use Rattle.float.specs.Power.{power_of};
ghost use Rattle.polynomial.specs.Piece.{piece_power, piece_powers, error_of, bernstein_of, bernstein_coefficients, curve_form};
ghost use Rattle.polynomial.specs.Interval.{errors_on, all_finite, largest_turn};
ghost use Rattle.polynomial.specs.Largest.{larger_of, largest_of};

// Where a piece lies. `u` and `w`: its left end and its width, by the segment's local parameter.
// `before` and `part`: what part of the waypoint interval lies before it, and what part it is.
#[derive(Clone, Copy)]
pub struct Piece {
    pub u: f64,
    pub w: f64,
    pub before: f64,
    pub part: f64,
    pub middle: f64,
}

// The largest absolute coefficient of an axis; the largest of all axes, and the middle of its piece.
#[derive(Clone, Copy)]
pub struct Largest {
    pub bound: f64,
    pub peak: f64,
    pub witness: f64,
}

// Power j, by the piece's parameter, of the polynomial with the six coefficients p.
fn power(p: &[f64], u: f64, w: f64, j: usize) -> f64
    requires { (length p.now ≡ 6) × (j < 6) }
    ensures { result ≡ piece_power floats (power_of floats) p.now u w j }
{
    let mut value = 0.0;
    for k in j..6 {
        let c = bspline::choose::choose(k, j);
        let q = float::powi(u, (k - j) as u32);
        value = value + c * p[k] * q;
    }
    value * float::powi(w, j as u32)
}

// All six powers.
fn powers(p: &[f64], u: f64, w: f64) -> [f64; 6]
    requires { length p.now ≡ 6 }
    ensures { result ≡ piece_powers floats (power_of floats) p.now u w }
{
    std::array::from_fn(|j| power(p, u, w, j))
}

// All six powers, less the line a + b times the piece's parameter.
fn error(p: &[f64], u: f64, w: f64, a: f64, b: f64) -> [f64; 6]
    requires { length p.now ≡ 6 }
    ensures { result ≡ error_of floats (power_of floats) p.now u w a b }
{
    let mut e = powers(p, u, w);
    e[0] = e[0] - a;
    e[1] = e[1] - b;
    e
}

// Bernstein coefficient k of the polynomial with these powers.
fn bernstein(powers: [f64; 6], k: usize) -> f64
    requires { k < 6 }
    ensures { result ≡ bernstein_of floats powers k }
{
    let mut v = 0.0;
    for j in 0..k + 1 {
        let c = bspline::choose::choose(k, j);
        let e = bspline::choose::choose(5, j);
        v = v + powers[j] * c / e;
    }
    v
}

// All six.
fn bernsteins(powers: [f64; 6]) -> [f64; 6]
    ensures { result ≡ bernstein_coefficients floats powers }
{
    std::array::from_fn(|k| bernstein(powers, k))
}

// The Bernstein coefficients of the segment's polynomial p on the piece, less the line that goes
// from `start` to `end` over the waypoint interval.
pub fn error_form(p: &[f64], start: f64, end: f64, q: Piece) -> [f64; 6]
    requires { length p.now ≡ 6 }
    ensures { result ≡ errors_on p.now start end q }
{
    let delta = end - start;
    bernsteins(error(p, q.u, q.w, start + q.before * delta, q.part * delta))
}

// The Bernstein coefficients of the segment's polynomial p on the piece from u on, w wide.
pub fn curve_form(p: &[f64], u: f64, w: f64) -> [f64; 6]
    requires { length p.now ≡ 6 }
    ensures { result ≡ curve_form floats (power_of floats) p.now u w }
{
    bernsteins(powers(p, u, w))
}

// Whether no coefficient is infinite or a NaN.
pub fn all_finite(b: [f64; 6]) -> bool
    ensures { result ≡ all_finite b }
{
    b.iter().all(|x| float::is_finite(*x))
}

// The largest absolute coefficient.
fn maximum(b: [f64; 6]) -> f64
    ensures { result ≡ largest_of b }
{
    let mut m = float::abs(b[0]);
    for k in 1..6 {
        let a = float::abs(b[k]);
        if m < a {
            m = a;
        }
    }
    m
}

// The coefficients b of a piece with this middle are taken in, which are all finite. The largest of
// them does what all do one after the other.
pub fn take_in(b: [f64; 6], middle: f64, before: Largest) -> Largest
    requires { all_finite b ≡ true }
    ensures { result ≡ each (largest_turn b middle) 0 6 before }
{
    let m = maximum(b);
    let bound = float::max(before.bound, m);
    if before.peak < m {
        Largest {
            bound,
            peak: m,
            witness: middle,
        }
    } else {
        Largest { bound, ..before }
    }
}
