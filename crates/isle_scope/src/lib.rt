//! The locals that are bound: where each was bound last, and what each holds.
#![tactic(auto)]

mod entry;
mod places;
mod scope;
mod table;

pub use places::Places;
pub use scope::Scope;
pub use table::Table;
