//! The first name that may not be emitted.
//! The declared types of the emitted text, and which names may stand in it.
#![tactic(auto)]

mod constants;
mod files;
mod items;
mod judging;
mod lawful;
mod name_error;
mod name_set;
mod ruled;
mod single;
mod terms;
mod texts;
mod types;
mod words;

pub use items::type_items;
pub use judging::lawful_names;
pub use lawful::is_type_name;
pub use name_error::{NameError, NameFail, NameUse};
pub use name_set::{added, is_new};
