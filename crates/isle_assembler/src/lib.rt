//! The terms of an assembler's instructions, in rules and in Rust.
#![tactic(auto)]

mod conversions;
pub mod gen_asm;
mod methods;
mod pieces;
mod returns;
mod rules;
mod signature;
mod texts;

pub use methods::methods_of;
pub use texts::{isle_text, rules_of, rust_text};
