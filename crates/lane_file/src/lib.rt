// Lane files: a curve as bytes, document 02, request 1. A curve is a struct by value, as in `curve`, with four
// slices beside it. The cells of the coefficients are bit patterns, so that a NaN's bits travel unchanged; behind
// them lie the patterns of the widths (request 12). A file has no widths: reading makes them from the breaks.
#![tactic(auto)]

mod refusal; // refusal.rt: why a curve is not written, or a file not read
mod cells; // cells.rt: the curve in the bytes, taken out of them
mod entry; // entry.rt: writing and reading
mod formed; // formed.rt: whether the curve in the bytes is well formed
mod kept; // kept.rt: whether a curve whose coefficients and widths are bit patterns is well formed
mod head; // head.rt: what a file begins with, and whether it reads
mod put; // put.rt: the parts of a file, put into bytes

pub use entry::{read, write};
pub use refusal::Refusal;
