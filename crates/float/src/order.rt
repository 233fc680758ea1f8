// Absolute value, maximum, minimum, total order, and the test for a finite number.
ghost use Rattle.std.specs.Prelude.{◌≡◌};
ghost use Rattle.std.specs.Float.Ieee.Scale.{finite};
ghost use Rattle.fraction.specs.Value.{absolute_float};
ghost use Rattle.float.specs.Order.{max_of, min_of, total_le};

// Whether x is a number (Rust's f64::is_finite): no infinity and no NaN.
pub fn is_finite(x: f64) -> bool
    ensures { result ≡ finite x }
{
    x.is_finite()
}

// The absolute value (Rust's f64::abs): x with its sign cleared. A NaN gives a NaN. The sign's bit is
// cleared, since the library's `abs` compares.
pub fn abs(x: f64) -> f64
    ensures { result ≡ absolute_float x }
{
    if x.is_nan() {
        return x;
    }
    f64::from_bits(x.to_bits() % 0x8000_0000_0000_0000)
}

// The larger of the two; of a NaN and a number, the number. Of +0 and -0, which are equal, it is x:
// `f64::max` leaves open which is given.
pub fn max(x: f64, y: f64) -> f64
    ensures { result ≡ max_of x y }
{
    if x.is_nan() || x < y { y } else { x }
}

// The smaller of the two; of a NaN and a number, the number. Of +0 and -0, which are equal, it is x:
// `f64::min` leaves open which is given.
pub fn min(x: f64, y: f64) -> f64
    ensures { result ≡ min_of x y }
{
    if x.is_nan() || y < x { y } else { x }
}

// Whether x comes before y in the total order or is y: -0 comes before +0. A NaN comes last,
// whatever its sign bit, and two NaNs count as one: `f64::total_cmp` takes no NaN. Signs are looked at where
// both are zeros alone, so that a list in which one other number is placed is compared by `<=`.
pub fn total_le(x: f64, y: f64) -> bool
    ensures { result ≡ total_le x y }
{
    y.is_nan() || x < y || (x == y && (x != 0.0 || x.is_sign_negative() || y.is_sign_positive()))
}
