//! Rules in the order of their places, of which those of no higher priority than one can be passed over.

ghost use Rattle.std.specs.Prelude.{◌≡◌, ◌++◌, ◌∷◌, [], length, OnOk};
ghost use Rattle.isle_checks.specs.Ranked.{IsHighest, IsPassed, IsTail};

use crate::placed::Placed;
use std::alloc::{AllocError, Global};
use std::marker::Model;

/// Rules in the order of their places, and for each the one of the highest priority among it and those before it.
/// Contracts see them as the list of the rules.
#[derive(Drop)]
pub struct Ranked<'a> {
    rules: Vec<Placed<'a>>,
    tops: Vec<Placed<'a>>,
}

impl<'a> Model for Ranked<'a> {
    ghost use Rattle.std.specs.Prelude.{List};
    ghost use Rattle.isle_checks.specs.declared.placed.Placed.{Placed as PlacedRule};
    ghost use Rattle.isle_checks.specs.Ranked.{AreTops};

    ghost Value = { List PlacedRule };

    ghost view = { λ r. r.rules.items };

    ghost invariant = { λ r. AreTops r.rules.items r.tops.items };
}

// Of these tops, the last of which is the highest, and a rule the one of the highest priority.
fn highest<'a>(tops: &[Placed<'a>], placed: &Placed<'a>) -> Placed<'a>
    ensures { IsHighest tops.now placed.now result }
{
    match tops.last() {
        Some(top) if top.rule.prio > placed.rule.prio => *top,
        _ => *placed,
    }
}

// So many rules that the tops tell to be of no higher priority than a rule.
fn passed(tops: &[Placed<'_>], than: &Placed<'_>) -> usize
    ensures { IsPassed tops.now than.now.rule.now.prio result }
{
    let mut low = 0;
    let mut high = tops.len();
    while low < high {
        let middle = low + (high - low) / 2;
        if tops[middle].rule.prio <= than.rule.prio {
            low = middle + 1;
        } else {
            high = middle;
        }
    }
    low
}

impl<'a> Ranked<'a> {
    /// Makes a list of no rule.
    pub fn new(alloc: Global) -> Ranked<'a>
        ensures { result ≡ [] }
    {
        Ranked {
            rules: Vec::new(alloc),
            tops: Vec::new(alloc),
        }
    }

    /// Adds a rule. The only error is want of memory.
    pub fn push(&mut self, placed: Placed<'a>) -> Result<(), AllocError>
        ensures { OnOk result (self.new ≡ self.old ++ placed.entry ∷ []) }
    {
        let top = highest(self.tops.as_slice(), &placed);
        self.rules.push(placed)?;
        match self.tops.push(top) {
            Ok(()) => Ok(()),
            Err(_) => {
                self.rules.pop();
                Err(AllocError)
            }
        }
    }

    /// Returns how many rules there are.
    pub fn len(&self) -> usize
        ensures { result ≡ length self.now }
    {
        self.rules.len()
    }

    /// Returns the rules.
    pub fn as_slice(&self) -> &[Placed<'a>]
        ensures { result.now ≡ self.now }
    {
        self.rules.as_slice()
    }

    /// Returns the rules from the first on that has a higher priority than this one.
    pub fn above(&self, than: &Placed<'_>) -> &[Placed<'a>]
        ensures { IsTail than.now.rule.now.prio self.now result.now }
    {
        &self.rules.as_slice()[passed(self.tops.as_slice(), than)..]
    }
}
