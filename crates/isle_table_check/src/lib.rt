//! The check that says which row of all tables isn't supported, and the tables of the program itself.
#![tactic(auto)]

mod check;
mod program_tables;

pub use check::check_tables;
pub use program_tables::sample_tables;
