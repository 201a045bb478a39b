//! Units that are built: their files read and generated, and compiled into one text.
#![tactic(auto)]

mod build_error;
mod files;
mod generated;
mod reading;
mod unit;

pub use build_error::BuildError;
pub use files::unit_files;
pub use unit::build_unit;
