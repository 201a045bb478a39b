//! Readers of tokens: the cursor that code reads with.
#![tactic(auto)]

mod cursor;
mod name;

pub use cursor::{Expected, Fail, Tokens, most_inside};
