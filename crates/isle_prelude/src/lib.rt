//! Files of instruction sets as rules see them. No definition is made in memory: its text is appended piece by piece,
//! and laws say that the pieces are the text of the definitions.
#![tactic(auto)]

mod arrays;
mod ascending;
mod data;
mod fields;
mod files;
mod first_fields;
mod immediates;
mod instruction_data;
mod instructions;
mod manners;
mod operands;
mod paths;
mod pieces;
mod types;

pub use files::{gen_lower, gen_opt, lower_of, opt_of};
