//! Runs of target programs under given answers.
#![tactic(auto)]

mod agreed;
mod clashes;
mod constants;
mod entries;
mod entry;
mod fitting;
mod functions;
mod holders;
mod keys;
mod run_error;
mod served;
mod standing;
mod taking;
mod term;
mod typed;
mod values;
mod whole;
mod within;

pub use functions::function_of;
pub use run_error::RunError;
pub use term::{run_term, takes};
