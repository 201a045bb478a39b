//! The files that are generated for units: preludes in rules, and the Rust texts beside them.
#![tactic(auto)]

mod generating;
mod outputs;
mod texts;

pub use generating::{generate, generate_isle, generate_rust};
