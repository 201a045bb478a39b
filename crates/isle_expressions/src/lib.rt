//! Patterns, expressions and conditions of rule texts, read from tokens.
#![tactic(auto)]

mod expression;
mod iflet;
mod pattern;
mod words;

pub use iflet::tail;
pub use pattern::{arguments, template};
pub use words::{constant, decl_name, prio, rule_name};
