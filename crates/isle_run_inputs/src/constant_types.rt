//! The types of constants.

ghost use Rattle.std.specs.Prelude.{◌≡◌, IfOk};
ghost use Rattle.isle_core.specs.Rule.{Environment};
ghost use Rattle.isle_core.specs.Terms.{symbol_text};
ghost use Rattle.isle_run_inputs.specs.Requested.{constant_type};
ghost use Rattle.isle_run_inputs.specs.ConstantTypes.{FindsConstants};

use isle_core::{Sym, TypeEnv, TypeId};
use std::alloc::{AllocError, Global};
use std::collections::BTreeMap;
use std::marker::Model;

/// The types of constants, found by their names.
#[derive(Drop)]
pub struct ConstantTypes<'e> {
    typeenv: &'e TypeEnv,
    types: BTreeMap<&'e str, TypeId>,
}

impl<'e> Model for ConstantTypes<'e> {
    ghost use Rattle.isle_core.specs.declared.types.TypeEnv.{TypeEnv};
    ghost use Rattle.isle_run_inputs.specs.ConstantTypes.{FindsConstants};

    ghost Value = { TypeEnv };

    ghost view = { λ c. c.typeenv.now };

    ghost invariant = { λ c. FindsConstants c.typeenv.now c.typeenv.now.consts c.types };
}

// The name of a constant, and its type.
fn named<'e>(typeenv: &'e TypeEnv, constant: &(Sym, TypeId)) -> (&'e str, TypeId)
    ensures name { result.0.now ≡ symbol_text typeenv.now constant.now.0 }
    ensures typed { result.1 ≡ constant.now.1 }
{
    (typeenv.symbol(constant.0), constant.1)
}

impl<'e> ConstantTypes<'e> {
    /// Returns the types of the constants of an environment.
    pub fn new(alloc: Global, typeenv: &'e TypeEnv) -> Result<ConstantTypes<'e>, AllocError>
        ensures { IfOk result (λ types. types ≡ typeenv.now) }
    {
        let consts = typeenv.consts.as_slice();
        let mut types = BTreeMap::new(alloc);
        for index in (0..consts.len()).rev() {
            let constant = &consts[index];
            let entry = named(typeenv, constant);
            types.insert(entry.0, entry.1)?;
        }
        Ok(ConstantTypes { typeenv, types })
    }

    /// Returns the type of the first constant of this name.
    pub fn of(&self, name: &str) -> Option<TypeId>
        ensures { (env : Environment) → env.types ≡ self.now → result ≡ constant_type env name.now }
    {
        self.types.get(name).copied()
    }
}
