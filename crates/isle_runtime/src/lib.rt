//! Context iterators: what gives items one at a time and is handed a context for each, and a wrapper that
//! makes one of any iterator.
#![tactic(auto)]

mod iterators;
mod list_iter;
mod lists;
mod wrapper;

pub use iterators::{ContextIter, IntoContextIter};
pub use list_iter::ListIter;
pub use lists::Length;
pub use wrapper::ContextIterWrapper;
