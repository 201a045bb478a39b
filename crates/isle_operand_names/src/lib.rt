//! The names that stand in target programs for values, and those of the types that occur there.
#![tactic(auto)]

mod names;
mod program_names;
mod program_types;
mod sets;
mod types;

pub use program_names::standing;
pub use program_types::occurring;
pub use sets::set_of;
