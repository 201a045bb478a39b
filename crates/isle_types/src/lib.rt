//! The types and constants that definitions declare, and what may be wrong with them.
#![tactic(auto)]

mod before;
mod bodies;
mod builtins;
mod fault;
mod known_types;
mod misfit;
mod row;
mod type_environment;
mod words;

pub use before::Before;
pub use builtins::type_named;
pub use fault::{check_types, place_of, type_error};
pub use row::Row;
pub use type_environment::type_env;
pub use words::{push_name, told};
