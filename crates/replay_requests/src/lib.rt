// Requests of the list that `replay_builds` answers: what a case asks for, which parts of the buffers it
// lends, and its line. A library, so that it is proved beside other crates.
#![tactic(auto)]

pub mod lines; // lines.rt: the line of a built request
pub mod parts; // parts.rt: the parts of the buffers
pub mod question; // question.rt: the request of a case
