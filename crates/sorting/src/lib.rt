// Walks in place over lent cells: the sort by total order, and the elements that a rule keeps moved
// to the front.
#![tactic(auto)]

mod order;
mod thin;

pub use order::sort;
pub use thin::{dedup, keep_apart};
