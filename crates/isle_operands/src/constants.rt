//! The types of named constants.

ghost use Rattle.std.specs.Prelude.{◌≡◌, IfOk};
ghost use Rattle.isle_operands.specs.ConstTypes.{type_in, FindsTypes};

use isle_core::{Sym, TypeId};
use std::alloc::{AllocError, Global};
use std::collections::BTreeMap;
use std::marker::Model;

/// Named constants with their types, each found by its symbol.
#[derive(Drop)]
pub struct ConstTypes<'e> {
    consts: &'e [(Sym, TypeId)],
    found: BTreeMap<usize, TypeId>,
}

impl<'e> Model for ConstTypes<'e> {
    ghost use Rattle.std.specs.Prelude.{List};
    ghost use Rattle.isle_core.specs.declared.Sym.{Sym as SymOf};
    ghost use Rattle.isle_core.specs.declared.TypeId.{TypeId as TypeIdOf};
    ghost use Rattle.isle_operands.specs.ConstTypes.{FindsTypes};

    ghost Value = { List (SymOf × TypeIdOf) };

    ghost view = { λ c. c.consts.now };

    ghost invariant = { λ c. FindsTypes c.consts.now c.found };
}

// Makes the map of the constants, in which the first of each symbol counts.
fn by_symbol(alloc: Global, consts: &[(Sym, TypeId)]) -> Result<BTreeMap<usize, TypeId>, AllocError>
    ensures { IfOk result (λ found. FindsTypes consts.now found) }
{
    let mut found = BTreeMap::new(alloc);
    for index in (0..consts.len()).rev() {
        let (name, ty) = consts[index];
        found.insert(name.index(), ty)?;
    }
    Ok(found)
}

impl<'e> ConstTypes<'e> {
    /// Finds constants by their symbols. The only error is want of memory.
    pub fn new(alloc: Global, consts: &'e [(Sym, TypeId)]) -> Result<ConstTypes<'e>, AllocError>
        ensures { IfOk result (λ types. types ≡ consts.now) }
    {
        let found = by_symbol(alloc, consts)?;
        Ok(ConstTypes { consts, found })
    }

    /// Returns the type of a constant, if it is declared.
    pub fn of(&self, name: Sym) -> Option<TypeId>
        ensures { result ≡ type_in self.now name.0 }
    {
        self.found.get(&name.index()).copied()
    }
}
