//! The constants of a program.

ghost use Rattle.std.specs.Prelude.{◌≡◌, ◌↔◌, IsTrue, IfOk};
ghost use Rattle.isle_core.specs.ValueViews.{value};
ghost use Rattle.isle_tree.specs.Views.{program};
ghost use Rattle.isle_operand_names.specs.Occurring.{occurs};
ghost use Rattle.isle_interpreter.specs.Entries.{has_constant, FitsPlaces};

use crate::agreed::agreed_types;
use crate::typed::is_named;
use isle_core::Value;
use isle_operand_names::{occurring, standing};
use isle_places::{Signatures, Types};
use isle_tree::Program;
use std::alloc::{AllocError, Global};
use std::collections::{BTreeMap, BTreeSet};
use std::marker::Model;

/// The names that stand in the functions of a program, the types that occur in it, and the type that all places of a
/// name have.
#[derive(Drop)]
pub struct Constants<'s> {
    program: &'s Program,
    names: BTreeSet<&'s str>,
    occurring: BTreeSet<&'s str>,
    types: BTreeMap<&'s str, Option<&'s str>>,
}

impl<'s> Model for Constants<'s> {
    ghost use Rattle.std.specs.Prelude.{◌≡◌, ℕ, List, map};
    ghost use Rattle.std.specs.Coded.{codes};
    ghost use Rattle.isle_tree.specs.contracts.tree.Stmt as e;
    ghost use Rattle.isle_tree.specs.declared.tree.Program.{Program};
    ghost use Rattle.isle_tree.specs.Views.{function, program as program_of};
    ghost use Rattle.isle_operand_names.specs.Names.{function_names, is_among};
    ghost use Rattle.isle_operand_names.specs.Occurring.{occurs};
    ghost use Rattle.isle_operand_names.specs.Sets.{has_name};
    ghost use Rattle.isle_interpreter.specs.Agreed.{at_name, agreed};
    ghost use Rattle.isle_places.specs.Places.{all_named};

    ghost Value = { Program };

    ghost coded = { Prim.hlevel (codes, e.the_row.coded) };

    ghost view = { λ c. c.program.now };

    ghost invariant = { λ c. ((name : List ℕ)
        → has_name c.names name
        ≡ is_among name (function_names (map function c.program.now.fns)))
        × ((name : List ℕ) → has_name c.occurring name ≡ occurs (program_of c.program.now) name)
        × ((name : List ℕ)
        → at_name c.types name ≡ agreed name (all_named (program_of c.program.now))) };
}

impl<'s> Constants<'s> {
    /// Gathers the constants of a program, whose signatures are these. The only error is want of memory.
    pub fn new(
        alloc: Global,
        p: &'s Program,
        signatures: &'s Signatures<'_>,
    ) -> Result<Constants<'s>, AllocError>
        requires { signatures.now ≡ p.now }
        ensures { IfOk result (λ c. c ≡ p.now) }
    {
        let names = standing(alloc, p.fns.as_slice())?;
        let occurring = occurring(alloc, p)?;
        let types = agreed_types(alloc, signatures, p.fns.as_slice())?;
        Ok(Constants {
            program: p,
            names,
            occurring,
            types,
        })
    }

    /// Tells whether a type of this name occurs in the program.
    pub fn occurs(&self, name: &str) -> bool
        ensures { result ≡ occurs (program self.now) name.now }
    {
        self.occurring.contains(name)
    }

    /// Tells whether the program has a constant of this name.
    pub fn has(&self, name: &str) -> bool
        ensures { result ≡ has_constant (program self.now) name.now }
    {
        self.names.contains(name) && !self.occurring.contains(name)
    }

    /// Tells whether a value is of each type that the program fixes for a place of the constant of this name. The only
    /// error is want of memory.
    pub fn fits(
        &self,
        alloc: Global,
        types: &Types<'_>,
        name: &str,
        given: &Value,
    ) -> Result<bool, AllocError>
        requires { types.now ≡ self.now.types }
        ensures { IfOk result (λ fits.
            IsTrue fits ↔ FitsPlaces (program self.now) name.now (value given.now)) }
    {
        match self.types.get(name).copied() {
            None => Ok(true),
            Some(None) => Ok(false),
            Some(Some(ty)) => is_named(alloc, types, ty, given),
        }
    }
}
