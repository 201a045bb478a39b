//! Units: which files are compiled together, and where their text goes.
#![tactic(auto)]

mod building;
mod compilation;
mod compilations;
mod joining;
mod paths;
mod paths_error;
mod rows;
mod text;
mod tracked;

pub use building::{get_isle_compilations, shared_isle_lower_paths};
pub use compilation::IsleCompilation;
pub use compilations::IsleCompilations;
pub use paths_error::PathsError;
pub use text::units_text;
pub use tracked::tracked_names;
