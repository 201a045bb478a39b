//! The rule text of the numeric prelude, and the names of its terms.
#![tactic(auto)]

mod conversions;
mod definition;
mod extractors;
mod operations;
mod term_names;
mod text;

pub use term_names::terms;
pub use text::numerics_isle;
