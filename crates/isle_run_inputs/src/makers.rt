//! What written names make at the types of an environment.

ghost use Rattle.std.specs.Prelude.{◌≡◌, IfOk, IfSome, option_map, slice_get};

use crate::maker::TypeMakers;
use isle_core::{TypeEnv, TypeId};
use std::alloc::{AllocError, Global};
use std::marker::Model;

/// The types of an environment, each with its variants found by their names.
#[derive(Drop)]
pub struct Makers<'e> {
    typeenv: &'e TypeEnv,
    types: Vec<TypeMakers<'e>>,
}

impl<'e> Model for Makers<'e> {
    ghost use Rattle.std.specs.Prelude.{◌≡◌, map};
    ghost use Rattle.isle_core.specs.declared.types.TypeDef.{TypeDef};
    ghost use Rattle.isle_core.specs.declared.types.TypeEnv.{TypeEnv};

    ghost Value = { TypeEnv };

    ghost view = { λ m. m.typeenv.now };

    ghost invariant = { λ m. m.types.items
        ≡ map (λ (d : TypeDef). (m.typeenv.now, d)) m.typeenv.now.types };
}

impl<'e> Makers<'e> {
    /// Finds the variants of each type by their names.
    pub fn new(alloc: Global, typeenv: &'e TypeEnv) -> Result<Makers<'e>, AllocError>
        ensures { IfOk result (λ m. m ≡ typeenv.now) }
    {
        let mut types = Vec::new(alloc);
        for def in typeenv.types.as_slice() {
            types.push(TypeMakers::new(alloc, typeenv, def)?)?;
        }
        Ok(Makers { typeenv, types })
    }

    /// Returns the types and constants of the environment.
    pub fn typeenv(&self) -> &'e TypeEnv
        ensures { result.now ≡ self.now }
    {
        self.typeenv
    }

    /// Returns the type of this number, if there is one.
    pub fn at(&self, ty: TypeId) -> Option<&TypeMakers<'e>>
        ensures known { IfSome result (λ m. m.now.0 ≡ self.now) }
        ensures found { option_map (λ m. m.now.1) result ≡ slice_get self.now.types ty.0 }
    {
        self.types.get(ty.index())
    }
}
