// Float leaves: the functions on an `f64` that IEEE 754 or Rust's library has and the language has
// not. Each is total: it answers for every bit pattern, NaN included.
#![tactic(auto)]

mod next;
mod order;
mod power;
mod root;

pub use next::{next_down, next_up};
pub use order::{abs, is_finite, max, min, total_le};
pub use power::powi;
pub use root::sqrt;
