//! Instruction tables as users write them.
#![tactic(auto)]

mod assembler;
mod fail;
mod formats;
mod instructions;
mod item;
mod operations;
mod pieces;
mod reading;
mod resolved;
mod texts;
mod words;

pub use fail::TablesFail;
pub use texts::parse_tables;
