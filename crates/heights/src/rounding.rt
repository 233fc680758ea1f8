// A float to the nearest whole number, halves away from zero, by its bits.
ghost use Rattle.std.specs.Prelude.{◌≡◌, ◌≤◌};
ghost use Rattle.heights.specs.Lifted.{RoundedFrom};
ghost use Rattle.heights.specs.Places.{whole_place};

// The nearest whole number to the number with the bits `place`, whose sign is clear and which is not above
// 2,000,000. Where its exponent's field is 1022 or more, its digits stand for digits · 2^(exponent - 1075).
fn nearest_place(place: u64) -> u64
    requires { place ≤ 0x413E_8480_0000_0000 }
    ensures { (result ≡ whole_place place) × (result ≤ 2000000) }
{
    let exponent = place / 0x10_0000_0000_0000;
    if exponent < 1022 {
        return 0;
    }
    let digits = place - (exponent - 1) * 0x10_0000_0000_0000;
    let half = 1074 - exponent;
    ((digits >> half) + 1) / 2
}

// x to the nearest whole number, as the number by which it lies above -2,000,000; none where x is not
// finite or beyond ±2,000,000.
pub(crate) fn nearest_whole(x: f64) -> Option<u64>
    ensures { RoundedFrom x result }
{
    if x != x {
        return None;
    }
    let bits = f64::to_bits(x);
    let place = bits % 0x8000_0000_0000_0000;
    if 0x413E_8480_0000_0000 < place {
        return None;
    }
    let size = nearest_place(place);
    if bits < 0x8000_0000_0000_0000 {
        Some(2000000 + size)
    } else {
        Some(2000000 - size)
    }
}
