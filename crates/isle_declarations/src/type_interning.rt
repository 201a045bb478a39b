//! The names in what types are declared as, from left to right.

ghost use Rattle.std.specs.Prelude.{◌≡◌, ◌∷◌, [], List, ℕ, OnOk, fold, flat_map};
ghost use Rattle.isle_declarations.specs.Symbols.{added};
ghost use Rattle.isle_declarations.specs.Names.{shape_names, shaped_names, body_names};

use crate::symbols::Symbols;
use crate::text_interning::{intern, intern_names};
use isle_ast::{AstBody, AstFields, AstVariant};
use isle_core::Name;
use std::alloc::AllocError;

// The names of fields, each before its type's.
fn intern_named<'b, 'd>(
    names: &mut Symbols<'b>,
    fields: &'b [(Name<'d>, Name<'d>)],
) -> Result<(), AllocError>
    ensures { OnOk result
        (names.new ≡ fold added names.old
        (flat_map (λ (f : List ℕ × List ℕ). f.0 ∷ f.1 ∷ []) fields.now)) }
{
    for field in fields {
        intern(names, &field.0)?;
        intern(names, &field.1)?;
    }
    Ok(())
}

// The names in the fields of a variant or a struct.
fn intern_fields<'b, 'd>(
    names: &mut Symbols<'b>,
    fields: &'b AstFields<'d>,
) -> Result<(), AllocError>
    ensures { OnOk result (names.new ≡ fold added names.old (shape_names fields.now)) }
{
    match fields {
        AstFields::Unit => Ok(()),
        AstFields::Named(fields) => intern_named(names, fields.as_slice()),
        AstFields::Tuple(types) => intern_names(names, types.as_slice()),
    }
}

// The names in variants, in order.
fn intern_variants<'b, 'd>(
    names: &mut Symbols<'b>,
    variants: &'b [AstVariant<'d>],
) -> Result<(), AllocError>
    ensures { OnOk result (names.new ≡ fold added names.old (flat_map shaped_names variants.now)) }
{
    for variant in variants {
        intern(names, &variant.name)?;
        intern_fields(names, &variant.fields)?;
    }
    Ok(())
}

/// The names in what a type is declared as. The only error is want of memory.
pub fn intern_body<'b, 'd>(names: &mut Symbols<'b>, body: &'b AstBody<'d>) -> Result<(), AllocError>
    ensures { OnOk result (names.new ≡ fold added names.old (body_names body.now)) }
{
    match body {
        AstBody::Primitive(rust) => intern(names, rust),
        AstBody::Enum(variants) => intern_variants(names, variants.as_slice()),
        AstBody::Struct(fields) => intern_fields(names, fields),
    }
}
