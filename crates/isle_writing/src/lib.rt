//! The writer of rule texts: definitions as the text that spells them.
#![tactic(auto)]

mod body;
mod declaration;
mod definition;
mod expression;
mod link;
mod pattern;
mod rule;
mod word;
mod writer;

pub use definition::push_def;
pub use writer::{push_defs, write_defs};
