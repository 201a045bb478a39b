//! The forms of values that are made and taken apart: variants and structs.

ghost use Rattle.std.specs.Prelude.{◌≡◌, IfOk, map, option_map, option_and_then, slice_get};
ghost use Rattle.isle_core.specs.Form.{form, form_types};
ghost use Rattle.isle_core.specs.HasType.{typed_fields};
ghost use Rattle.isle_core.specs.Making.{MakesVariant, MakesStruct};
ghost use Rattle.isle_core.specs.Rule.{Environment};
ghost use Rattle.isle_operands.specs.Contexts.{env_of};
ghost use Rattle.isle_operands.specs.Forms.{form_seen};

use crate::context::Context;
use isle_core::{Fields, Sym, Text, TypeDef, TypeId, VariantId};
use std::alloc::{AllocError, Global};

/// The name of a type, that of a variant of it if it is an enum, and the fields.
#[derive(Clone, Copy)]
pub struct Form<'a> {
    pub ty: Sym,
    pub variant: Option<Sym>,
    pub fields: &'a Fields,
}

/// Returns the form of a variant, if there is such a one.
pub fn variant_form<'a>(context: &Context<'a>, ty: TypeId, variant: VariantId) -> Option<Form<'a>>
    ensures { option_map form_seen result ≡ form (env_of context.now) (MakesVariant ty variant) }
{
    match context.typeenv.types.as_slice().get(ty.index()) {
        Some(TypeDef::Enum { name, variants, .. }) => {
            let found = variants.as_slice().get(variant.index())?;
            Some(Form {
                ty: *name,
                variant: Some(found.name),
                fields: &found.fields,
            })
        }
        Some(TypeDef::Builtin(_))
        | Some(TypeDef::Primitive { .. })
        | Some(TypeDef::Struct { .. })
        | None => None,
    }
}

/// Returns the form of a struct, if the type is one.
pub fn struct_form<'a>(context: &Context<'a>, ty: TypeId) -> Option<Form<'a>>
    ensures { option_map form_seen result ≡ form (env_of context.now) (MakesStruct ty) }
{
    match context.typeenv.types.as_slice().get(ty.index()) {
        Some(TypeDef::Struct { name, fields, .. }) => {
            Some(Form {
                ty: *name,
                variant: None,
                fields,
            })
        }
        Some(TypeDef::Builtin(_))
        | Some(TypeDef::Primitive { .. })
        | Some(TypeDef::Enum { .. })
        | None => None,
    }
}

/// Returns the name and the type of the field of this number, if there is one; the fields of a tuple have their
/// numbers for names.
pub fn field_at(
    alloc: Global,
    context: &Context<'_>,
    fields: &Fields,
    index: usize,
) -> Result<Option<(Text, TypeId)>, AllocError>
    ensures { IfOk result (λ found.
        found ≡ slice_get (typed_fields (env_of context.now) fields.now) index) }
{
    context.typeenv.field_at(alloc, fields, index)
}

// Returns the type of the field of this number, if there is one.
fn type_at(fields: &Fields, index: usize) -> Option<TypeId>
    ensures { (env : Environment)
        → result ≡ slice_get (map (λ field. field.1) (typed_fields env fields.now)) index }
{
    match fields {
        Fields::Unit => None,
        Fields::Struct(named) => match named.as_slice().get(index) {
            Some(field) => Some(field.ty),
            None => None,
        },
        Fields::Tuple(tys) => tys.as_slice().get(index).copied(),
    }
}

/// Returns the type of the field of this number, if there is such a form and such a field.
pub fn field_type(of: Option<Form<'_>>, index: usize) -> Option<TypeId>
    ensures { (env : Environment)
        → result ≡ option_and_then (λ f. slice_get (form_types env f) index)
        (option_map form_seen of.entry) }
{
    match of {
        Some(form) => type_at(form.fields, index),
        None => None,
    }
}
