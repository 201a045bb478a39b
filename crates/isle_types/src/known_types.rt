//! The types of definitions by their names.

ghost use Rattle.std.specs.Prelude.{◌≡◌, List, [], ◌∷◌, ◌++◌, IfOk, OnOk, false, slice_index_or};
ghost use Rattle.std.specs.Option.{option_map_or};
ghost use Rattle.isle_ast.specs.Views.{def, defs as seen};
ghost use Rattle.isle_ast.specs.Tree.{Def as PureDef};
ghost use Rattle.isle_types.specs.TypeNames.{is_primitive, is_type, is_scalar};
ghost use Rattle.isle_types.specs.Gathered.{AreKnown};

use crate::bodies::meets;
use crate::builtins::type_named;
use isle_ast::{AstBody, Def};
use isle_core::Name;
use isle_declarations::{Symbols, type_of};
use std::alloc::{AllocError, Global};

/// The types that definitions declare, by their names, and whether the first of a name is primitive.
#[derive(Drop)]
pub struct KnownTypes<'b> {
    names: Symbols<'b>,
    primitive: Vec<bool>,
}

// Whether a type stands for one of Rust's.
fn is_primitive(body: &AstBody) -> bool
    ensures { result ≡ is_primitive body.now }
{
    match body {
        AstBody::Primitive(_) => true,
        AstBody::Enum(_) => false,
        AstBody::Struct(_) => false,
    }
}

// The value that stands at a place, if there is a place.
fn value_at(values: &[bool], place: Option<usize>) -> bool
    ensures { result ≡ option_map_or (λ i. slice_index_or values.now i false) place false }
{
    match place {
        Some(place) => values.get(place).copied().unwrap_or(false),
        None => false,
    }
}

impl<'b> KnownTypes<'b> {
    /// Gathers the types of definitions. The only error is want of memory.
    #[tactic(auto, using(crate::proofs::KnownLaws::nothing_known))]
    pub fn gather<'d>(alloc: Global, defs: &'b [Def<'d>]) -> Result<KnownTypes<'b>, AllocError>
        ensures { IfOk result (λ known. AreKnown (seen defs.now) known) }
    {
        let mut known = KnownTypes {
            names: Symbols::new(alloc),
            primitive: Vec::new(alloc),
        };
        for given in defs {
            known.declare(given)?;
        }
        Ok(known)
    }

    // Adds the type that a definition declares, if it is the first of its name.
    fn declare<'d>(&mut self, given: &'b Def<'d>) -> Result<(), AllocError>
        ensures { OnOk result
            ((before : List PureDef) → AreKnown before self.old
            → AreKnown (before ++ def given.now ∷ []) self.new) }
    {
        if let Some((name, body)) = type_of(given) {
            if meets(&mut self.names, name.as_str())? {
                return Ok(());
            }
            self.primitive.push(is_primitive(body))?;
        }
        Ok(())
    }

    /// Tells whether a name is that of a type.
    #[tactic(auto, using(crate::proofs::KnownLaws::type_known))]
    pub fn is_type(&self, name: &Name) -> bool
        ensures { (defs : List PureDef) → AreKnown defs self.now → result ≡ is_type defs name.now }
    {
        type_named(name.as_str()).is_some() || self.names.find(name.as_str()).is_some()
    }

    /// Tells whether it is that of a builtin or a primitive type.
    pub fn is_scalar(&self, name: &Name) -> bool
        ensures { (defs : List PureDef) → AreKnown defs self.now
            → result ≡ is_scalar defs name.now }
    {
        type_named(name.as_str()).is_some()
            || value_at(self.primitive.as_slice(), self.names.find(name.as_str()))
    }
}
