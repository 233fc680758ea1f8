// The float leaves under C names, for the Rust driver in bench/ to link: each with the contract of what
// it calls.
#![tactic(auto)]

ghost use Rattle.std.specs.Prelude.{◌≡◌};
ghost use Rattle.std.specs.Float.{binary64};
ghost use Rattle.std.specs.Float.Ieee.Scale.{finite};
ghost use Rattle.arith.specs.Operations.{floats};
ghost use Rattle.fraction.specs.NextNumber.{next_up, next_down};
ghost use Rattle.fraction.specs.Value.{absolute_float};
ghost use Rattle.float.specs.Order.{max_of, min_of, total_le};
ghost use Rattle.float.specs.Power.{power_of};
ghost use Rattle.float.specs.Root.{sqrt_of};

#[unsafe(no_mangle)]
pub extern "C" fn pamitoye_sqrt(x: f64) -> f64
    ensures { result ≡ sqrt_of binary64 x }
{
    float::sqrt(x)
}

#[unsafe(no_mangle)]
pub extern "C" fn pamitoye_abs(x: f64) -> f64
    ensures { result ≡ absolute_float x }
{
    float::abs(x)
}

#[unsafe(no_mangle)]
pub extern "C" fn pamitoye_max(x: f64, y: f64) -> f64
    ensures { result ≡ max_of x y }
{
    float::max(x, y)
}

#[unsafe(no_mangle)]
pub extern "C" fn pamitoye_min(x: f64, y: f64) -> f64
    ensures { result ≡ min_of x y }
{
    float::min(x, y)
}

#[unsafe(no_mangle)]
pub extern "C" fn pamitoye_total_le(x: f64, y: f64) -> bool
    ensures { result ≡ total_le x y }
{
    float::total_le(x, y)
}

#[unsafe(no_mangle)]
pub extern "C" fn pamitoye_powi(x: f64, n: u32) -> f64
    ensures { result ≡ power_of floats x n }
{
    float::powi(x, n)
}

#[unsafe(no_mangle)]
pub extern "C" fn pamitoye_next_up(x: f64) -> f64
    ensures { result ≡ next_up binary64 x }
{
    float::next_up(x)
}

#[unsafe(no_mangle)]
pub extern "C" fn pamitoye_next_down(x: f64) -> f64
    ensures { result ≡ next_down binary64 x }
{
    float::next_down(x)
}

#[unsafe(no_mangle)]
pub extern "C" fn pamitoye_is_finite(x: f64) -> bool
    ensures { result ≡ finite x }
{
    float::is_finite(x)
}
