//! What is wrong with the rules of a term, each by itself and among each other.
//! Which terms use themselves and are not marked so.
#![tactic(auto)]

mod bears;
mod classes;
mod errors;
mod firsts;
mod lists;
mod masks;
mod names;
mod notes;
pub mod overlap;
mod parts;
mod placed;
mod priorities;
mod ranked;
pub mod recursion;
mod splitter;
mod unreachable;
mod uses;
mod within;

pub use overlap::CheckError;
