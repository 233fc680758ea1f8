// One window of controls fitted anew, all others frozen: the source's `fit`.
#![tactic(auto)]

mod assembly; // assembly.rt: the rows of a window, added to its system
mod window_fit; // window_fit.rt: the fit of a window

pub use window_fit::{Counts, fit};
