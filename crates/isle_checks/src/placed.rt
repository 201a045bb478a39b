//! Rules with their places, and when one makes an error of another.

ghost use Rattle.std.specs.Prelude.{◌↔◌, IsTrue};
ghost use Rattle.isle_checks.specs.Makes.{Makes};

use crate::bears::{agree, are_among};
use isle_core::FlatRule;

/// What is looked for: rules that overlap, or rules that shadow others.
#[derive(Clone, Copy, Debug, PartialEq, Eq)]
pub enum Check {
    Overlaps,
    Shadows,
}

/// A rule, and its place among the rules of its term.
#[derive(Clone, Copy)]
pub struct Placed<'a> {
    pub place: usize,
    pub rule: &'a FlatRule,
}

// Whether two rules overlap, the first before the second.
fn overlap(a: &Placed<'_>, b: &Placed<'_>) -> bool
    ensures { IsTrue result ↔ Makes Check.Overlaps a.now b.now }
{
    if a.place >= b.place {
        return false;
    }
    if a.rule.prio != b.rule.prio {
        return false;
    }
    agree(a.rule.constraints.as_slice(), b.rule.constraints.as_slice())
}

// Whether the first shadows the second.
fn shadows(a: &Placed<'_>, b: &Placed<'_>) -> bool
    ensures { IsTrue result ↔ Makes Check.Shadows a.now b.now }
{
    if a.rule.prio <= b.rule.prio {
        return false;
    }
    if !a.rule.equals.as_slice().is_empty() {
        return false;
    }
    if !b.rule.equals.as_slice().is_empty() {
        return false;
    }
    are_among(a.rule.constraints.as_slice(), b.rule.constraints.as_slice())
}

impl Check {
    /// Tells whether the first rule makes an error of the second.
    pub fn makes(self, a: &Placed<'_>, b: &Placed<'_>) -> bool
        ensures { IsTrue result ↔ Makes self a.now b.now }
    {
        match self {
            Check::Overlaps => overlap(a, b),
            Check::Shadows => shadows(a, b),
        }
    }
}
