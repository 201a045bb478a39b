//! What the statements of a term are made from.

use isle_core::{Binding, Term, TermEnv, TypeEnv};

/// An environment, a term of it, and the bindings of the term's rules.
#[derive(Clone, Copy)]
pub struct Context<'a> {
    pub typeenv: &'a TypeEnv,
    pub termenv: &'a TermEnv,
    pub term: &'a Term,
    pub bindings: &'a [Binding],
}
