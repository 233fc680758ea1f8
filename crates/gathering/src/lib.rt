// The parameters and the rows of a request, put into lent cells.
#![tactic(auto)]

mod parameters; // parameters.rt: the normalised parameters
mod rows; // rows.rt: the rows of some axes, as handed in and centred

pub use parameters::put_parameters;
pub use rows::{put_centred, put_rows};
