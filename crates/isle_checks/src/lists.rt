//! Lists of rules under keys.

ghost use Rattle.std.specs.Prelude.{◌≡◌, OnOk, [], Some as SomeOf, Option as OptionOf};
ghost use Rattle.isle_checks.specs.declared.lists.Key.{Key as TheKey};
ghost use Rattle.isle_checks.specs.Lists.{Adds, AddsUnder, listing};

use crate::placed::Placed;
use crate::ranked::Ranked;
use isle_core::{BindingId, Constraint};
use std::alloc::{AllocError, Global};
use std::collections::BTreeMap;

/// What rules are listed under: their priority, or a constraint on a binding.
#[derive(Clone, Copy, PartialEq, Eq, PartialOrd, Ord)]
pub enum Key {
    Priority(i64),
    Constraint(BindingId, Constraint),
}

/// The rules under each key, and those under none, in the order in which they were added.
#[derive(Drop)]
pub struct Lists<'a> {
    pub under: BTreeMap<Key, Ranked<'a>>,
    pub rest: Ranked<'a>,
}

// Adds a rule to those under a key.
fn push_under<'a>(
    alloc: Global,
    under: &mut BTreeMap<Key, Ranked<'a>>,
    key: Key,
    placed: Placed<'a>,
) -> Result<(), AllocError>
    ensures { OnOk result (AddsUnder key placed.entry under.old under.new) }
{
    let list = under.entry(key)?.or_insert(Ranked::new(alloc));
    list.push(placed)?;
    Ok(())
}

impl<'a> Lists<'a> {
    /// Makes lists of no rule.
    pub fn new(alloc: Global) -> Lists<'a>
        ensures { (key : OptionOf TheKey) → listing result key ≡ [] }
    {
        Lists {
            under: BTreeMap::new(alloc),
            rest: Ranked::new(alloc),
        }
    }

    /// Adds a rule to those under a key, or under none. The only error is want of memory.
    pub fn push(
        &mut self,
        alloc: Global,
        key: Option<Key>,
        placed: Placed<'a>,
    ) -> Result<(), AllocError>
        ensures { OnOk result (Adds key placed.entry (listing self.old) (listing self.new)) }
    {
        match key {
            Some(key) => push_under(alloc, &mut self.under, key, placed)?,
            None => self.rest.push(placed)?,
        }
        Ok(())
    }
}
