// Lists of cases and lines of answers, for the programs that replay the Rust's answers. oracle/README.md
// has the form of both.
#![tactic(auto)]

pub mod axes; // axes.rt: axes packed four to a whole number
pub mod curves; // curves.rt: the curve of a case, and the parts of its cells
pub mod list; // list.rt: reading a list of cases
pub mod output; // output.rt: lines of text
pub mod sizes; // sizes.rt: how many cells a curve's parts have
pub mod turn; // turn.rt: from one case to the next
