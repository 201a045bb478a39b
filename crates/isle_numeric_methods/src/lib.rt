//! The Rust text of the numeric prelude.
#![tactic(auto)]

mod conversions;
mod method;
mod operations;
mod text;

pub use text::numerics_rust;
