//! Patterns and conditions with their nodes counted, up to as many as a rule may have.

ghost use Rattle.std.specs.Prelude.{◌≤◌};

use isle_core::{IfLet, Pattern};

/// How many nodes a rule may have, its templates replaced.
pub const MOST_NODES: usize = 4096;

/// A pattern, and how many nodes it has.
#[derive(Drop)]
pub struct Counted {
    pub pattern: Pattern,
    pub nodes: usize,
    pub ghost small: { nodes ≤ 4096 },
}

/// Patterns in order, and how many nodes there are with them.
#[derive(Drop)]
pub struct Parts {
    pub patterns: Vec<Pattern>,
    pub nodes: usize,
    pub ghost small: { nodes ≤ 4096 },
}

/// Conditions in order, and how many nodes there are with them.
#[derive(Drop)]
pub struct Conditions {
    pub iflets: Vec<IfLet>,
    pub nodes: usize,
    pub ghost small: { nodes ≤ 4096 },
}
