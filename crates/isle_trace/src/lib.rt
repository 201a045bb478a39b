//! A traced run of a compiled term: the text of its program, and every call that the run makes.
#![tactic(auto)]

mod asked;
mod lines;
mod program;
mod traced;

pub use asked::Asked;
pub use traced::traced_trial;
