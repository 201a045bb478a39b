//! An optimizer's prelude and the file of its instructions are valid input: definitions and laws, and functions without
//! effect whose clauses are the laws.
#![tactic(auto)]

mod laws;

pub use laws::{prelude_accepted, prelude_compiled, sample_compiled};
