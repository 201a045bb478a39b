//! The answers of a callee.

use isle_core::{Answer, PureAnswers};

/// The cases of a pure callee, or the turns that are left of an impure one and what it answers after them.
#[derive(Clone, Copy)]
pub enum Source<'a> {
    Cases(&'a PureAnswers),
    Turns(&'a [Answer], &'a Answer),
}
