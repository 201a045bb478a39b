//! Target programs printed, read and counted.
#![tactic(auto)]

mod call;
mod context;
mod counting;
mod expr;
mod function;
mod made;
mod operand;
mod pattern;
mod print;
mod several;
mod statement;
mod types;

pub use counting::{TreeCounts, tree_counts};
pub use isle_spelling::rust_int_literal;
pub use print::print_program;
