// The square root, correctly rounded: an estimate in floats, of which nothing is proved, is checked
// exactly on whole numbers; where the check says no, the root is found digit by digit.
ghost use Rattle.std.specs.Prelude.{◌≡◌, true, ◌+◌, ◌-◌, ◌*◌, ◌/◌, ◌%◌, ◌^◌, ◌≤◌, ◌<◌, T, pos, nat_abs};
ghost use Rattle.std.specs.Int.Signed.{non_neg};
ghost use Rattle.std.specs.Float.{binary64};
ghost use Rattle.std.specs.Float.Ieee.{hid, ones};
ghost use Rattle.float.specs.Root.{sqrt_of, SquareRoot};
ghost use Rattle.float.specs.RootSteps.{root_bits, Exponent, Floor, Scaling, Nearest};

// A number above 0 as significand * 2^(exponent - 52), the significand of 53 digits: the exponent is
// the number's own, -1074 to 1023. The root carries its exponent here alone.
#[derive(Clone, Copy)]
struct Scaled {
    significand: u64,
    exponent: i16,
}

// The whole part of a root, and what its square leaves.
#[derive(Clone, Copy)]
struct Whole {
    root: u64,
    rest: u64,
}

// A finite number above 0, by its bits.
fn scale(bits: u64) -> Scaled
    requires { (0 < bits) × (bits < ones binary64 * hid binary64) }
    ensures { Scaling bits result.significand result.exponent }
{
    let field = bits / 0x10_0000_0000_0000;
    if field == 0 {
        let zeros = bits.leading_zeros() - 11;
        Scaled {
            significand: bits << zeros,
            exponent: -1022 - (zeros as i16),
        }
    } else {
        Scaled {
            significand: bits % 0x10_0000_0000_0000 + 0x10_0000_0000_0000,
            exponent: (field as i16) - 1023,
        }
    }
}

// How far an exponent lies above the least one, -1074.
fn above_least(exponent: i16) -> i16
    requires { Exponent exponent }
    ensures { (e : Exponent exponent) → result ≡ pos (e.k - 1022) }
{
    exponent + 1074
}

// 1 where the exponent is odd, else 0.
fn odd(above: i16) -> u64
    requires { T (non_neg above) }
    ensures { result ≡ nat_abs above % 2 }
{
    let half = above >> 1;
    (above - half - half) as u64
}

// The field of the root's exponent, which is half the exponent rounded down, less the 1 that the
// first digit of the root adds to it: -537 + above / 2 + 1023 - 1.
fn field_of_half(above: i16) -> u64
    requires { (T (non_neg above)) × (nat_abs above ≤ 2097) }
    ensures { result ≡ nat_abs above / 2 + 485 }
{
    ((above >> 1) + 485) as u64
}

// Most likely the whole number nearest to the root of m * 2^52, or of m * 2^53 where t is 1: three
// Newton steps for 1 / root, from a first estimate by the bits, and one for the root, whose square
// is taken in two parts so that nothing is lost.
fn estimate(m: u64, t: u64) -> u64
    requires { (2 ^ 52 ≤ m) × (m < 2 ^ 53) × (t ≤ 1) }
    ensures { result < 2 ^ 53 }
{
    let bits = (1022 + t) * 0x10_0000_0000_0000 + m;
    let x = f64::from_bits(bits);
    let y0 = f64::from_bits(0x5fe6_eb50_c7b5_37a9 - bits / 2);
    let h = 0.5 * x;
    let y1 = 1.5 * y0 - (h * y0) * (y0 * y0);
    let y2 = 1.5 * y1 - (h * y1) * (y1 * y1);
    let y3 = 1.5 * y2 - (h * y2) * (y2 * y2);
    let s = x * y3;
    let high = (s + 201326592.0) - 201326592.0;
    let low = s - high;
    let error = ((x - high * high) - 2.0 * high * low) - low * low;
    let r = s + 0.5 * y3 * error;
    if r.is_nan() {
        return 0x10_0000_0000_0000;
    }
    r.to_bits() % 0x10_0000_0000_0000 + 0x10_0000_0000_0000
}

// Whether k is the whole number nearest to the root of w * 2^52, by the square of k, a * 2^26 + b.
// It may say no where k is nearest.
fn confirm(w: u64, k: u64) -> bool
    requires { (w < 2 ^ 54) × (k < 2 ^ 53) }
    ensures { result ≡ true → Nearest (w * 2 ^ 52) k }
{
    let a = k / 0x400_0000;
    let b = k % 0x400_0000;
    if w < a * a {
        return false;
    }
    let c = w - a * a;
    if 0x1000_0000 < c {
        return false;
    }
    let t = c * 0x400_0000 + a;
    let u = 2 * (a * b);
    if t < u {
        return false;
    }
    let d = t - u;
    if 0x4000_0000 < d {
        return false;
    }
    let v = d * 0x400_0000 + b;
    if v <= b * b {
        return false;
    }
    v - b * b <= 2 * k
}

// The whole part of the root of w * 2^52, a binary digit at a time, and what its square leaves.
fn digits(w: u64) -> Whole
    requires { w < 2 ^ 54 }
    ensures { Floor (w * 2 ^ 52) result.root result.rest }
{
    let mut left = w << 10;
    let mut root: u64 = 0;
    let mut rest: u64 = 0;
    for _ in 0u8..53 {
        rest = rest * 4 + left / 0x4000_0000_0000_0000;
        left = (left % 0x4000_0000_0000_0000) * 4;
        let t = root * 4 + 1;
        if t <= rest {
            rest -= t;
            root = root * 2 + 1;
        } else {
            root *= 2;
        }
    }
    Whole { root, rest }
}

// The whole number nearest to the root of m * 2^52, or of m * 2^53 where t is 1.
fn nearest(m: u64, t: u64) -> u64
    requires { (2 ^ 52 ≤ m) × (m < 2 ^ 53) × (t ≤ 1) }
    ensures { Nearest (m * (1 + t) * 2 ^ 52) result }
{
    let k = estimate(m, t);
    let w = m * (1 + t);
    if confirm(w, k) {
        return k;
    }
    let whole = digits(w);
    if whole.root < whole.rest {
        return whole.root + 1;
    }
    whole.root
}

// The bits of the root of a finite number above 0, from the number's bits.
fn root_bits(bits: u64) -> u64
    requires { (0 < bits) × (bits < ones binary64 * hid binary64) }
    ensures { result ≡ root_bits binary64 bits }
{
    let x = scale(bits);
    let above = above_least(x.exponent);
    let r = nearest(x.significand, odd(above));
    field_of_half(above) * 0x10_0000_0000_0000 + r
}

// The square root: of the f64 numbers the one nearest to the exact root, a tie to the even one. -0
// gives -0, +infinity itself, a NaN and every number below 0 a NaN.
pub fn sqrt(x: f64) -> f64
    ensures value { result ≡ sqrt_of binary64 x }
    ensures square_root { SquareRoot binary64 x result }
{
    if 0.0 < x {
        if x < f64::INFINITY {
            return f64::from_bits(root_bits(x.to_bits()));
        }
        return x;
    }
    if x == 0.0 {
        return x;
    }
    f64::NAN
}
