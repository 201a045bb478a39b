//! The terms of the Pulley interpreter's operations: a rule text that declares them, and a Rust text that shows,
//! visits and emits its instructions.
#![tactic(auto)]

mod display;
mod emission;
mod instruction;
mod parameters;
mod pieces;
pub mod pulley;
mod rules;
mod texts;
mod visits;

pub use texts::{rules_of, rust_of};
