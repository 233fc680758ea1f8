// The next number up and down.
ghost use Rattle.std.specs.Prelude.{◌≡◌};
ghost use Rattle.std.specs.Float.{binary64};
ghost use Rattle.fraction.specs.NextNumber.{next_up, next_down};

// The least number above x; the largest goes to +infinity. +infinity and a NaN stay.
pub fn next_up(x: f64) -> f64
    ensures { result ≡ next_up binary64 x }
{
    if x.is_nan() {
        return x;
    }
    let b = x.to_bits();
    if b < 0x7ff0_0000_0000_0000 {
        return f64::from_bits(b + 1);
    }
    if b < 0x8000_0000_0000_0000 {
        return x;
    }
    if b == 0x8000_0000_0000_0000 {
        return f64::from_bits(1);
    }
    f64::from_bits(b - 1)
}

// The greatest number below x; the lowest goes to -infinity. -infinity and a NaN stay.
pub fn next_down(x: f64) -> f64
    ensures { result ≡ next_down binary64 x }
{
    if x.is_nan() {
        return x;
    }
    let b = x.to_bits();
    if b == 0 {
        return f64::from_bits(0x8000_0000_0000_0001);
    }
    if b < 0x8000_0000_0000_0000 {
        return f64::from_bits(b - 1);
    }
    if b < 0xfff0_0000_0000_0000 {
        return f64::from_bits(b + 1);
    }
    x
}
