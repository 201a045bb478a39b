//! The functions that may be called, by their names.

ghost use Rattle.std.specs.Prelude.{◌≡◌, IfOk, option_map};
ghost use Rattle.isle_tree.specs.Callees.{FindsCallees};
ghost use Rattle.isle_tree.specs.WellFormed.{trait_fn};

use crate::tree::TraitFn;
use std::alloc::{AllocError, Global};
use std::collections::BTreeMap;
use std::marker::Model;

/// The functions of the trait, each found by its name.
#[derive(Drop)]
pub struct Callees<'p> {
    fns: &'p [TraitFn],
    found: BTreeMap<&'p str, &'p TraitFn>,
}

impl<'p> Model for Callees<'p> {
    ghost use Rattle.std.specs.Prelude.{List};
    ghost use Rattle.isle_tree.specs.declared.tree.TraitFn.{TraitFn};
    ghost use Rattle.isle_tree.specs.Callees.{FindsCallees};

    ghost Value = { List TraitFn };

    ghost view = { λ c. c.fns.now };

    ghost invariant = { λ c. FindsCallees c.fns.now c.found };
}

// The functions by their names, of each name the first.
fn by_name<'p>(
    alloc: Global,
    fns: &'p [TraitFn],
) -> Result<BTreeMap<&'p str, &'p TraitFn>, AllocError>
    ensures { IfOk result (λ found. FindsCallees fns.now found) }
{
    let mut found = BTreeMap::new(alloc);
    for index in (0..fns.len()).rev() {
        let f = &fns[index];
        found.insert(f.name.as_str(), f)?;
    }
    Ok(found)
}

impl<'p> Callees<'p> {
    /// Finds the functions of a trait by their names. The only error is want of memory.
    pub fn new(alloc: Global, fns: &'p [TraitFn]) -> Result<Callees<'p>, AllocError>
        ensures { IfOk result (λ c. c ≡ fns.now) }
    {
        let found = by_name(alloc, fns)?;
        Ok(Callees { fns, found })
    }

    /// Returns the function of this name.
    pub fn named(&self, name: &str) -> Option<&TraitFn>
        ensures { option_map (λ f. f.now) result ≡ trait_fn self.now name.now }
    {
        self.found.get(name).copied()
    }
}
