//! Context iterators, for whoever uses the emitted text. Their contracts are told in the README of `isle_runtime`.

pub use isle_runtime::{ContextIter, ContextIterWrapper, IntoContextIter, Length, ListIter};
