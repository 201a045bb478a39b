//! What types are declared as, in rule texts.

ghost use Rattle.std.specs.Prelude.{◌≡◌, ◌++◌, OnOk, string_bytes, map};
ghost use Rattle.isle_writing.specs.Text.{field_text, named_text, shape_text};
ghost use Rattle.isle_writing.specs.Text.{variant_text, variants_text, body_text};

use crate::word::{push_after, push_last, push_spaced};
use isle_ast::{AstBody, AstFields, AstVariant};
use isle_core::Name;
use std::alloc::AllocError;

// Appends a field and its type, after a blank.
fn push_field(text: &mut String, name: &Name, ty: &Name) -> Result<(), AllocError>
    ensures { OnOk result
        (string_bytes text.new ≡ string_bytes text.old ++ field_text name.now ty.now) }
{
    push_after(text, " (", name)?;
    push_last(text, " ", ty)
}

// Appends fields with names, each after a blank.
fn push_named(text: &mut String, fields: &[(Name, Name)]) -> Result<(), AllocError>
    ensures { OnOk result
        (string_bytes text.new ≡ string_bytes text.old ++ named_text fields.now) }
{
    for field in fields {
        push_field(text, &field.0, &field.1)?;
    }
    Ok(())
}

// Appends fields, each after a blank.
fn push_shape(text: &mut String, fields: &AstFields) -> Result<(), AllocError>
    ensures { OnOk result
        (string_bytes text.new ≡ string_bytes text.old ++ shape_text fields.now) }
{
    match fields {
        AstFields::Unit => Ok(()),
        AstFields::Named(named) => push_named(text, named.as_slice()),
        AstFields::Tuple(types) => push_spaced(text, " ", types.as_slice()),
    }
}

// Appends a variant.
fn push_variant(text: &mut String, name: &Name, fields: &AstFields) -> Result<(), AllocError>
    ensures { OnOk result
        (string_bytes text.new ≡ string_bytes text.old ++ variant_text name.now fields.now) }
{
    match fields {
        AstFields::Unit => text.push_str(name.as_str()),
        AstFields::Named(named) => {
            push_after(text, "(", name)?;
            push_named(text, named.as_slice())?;
            text.push_str(")")
        }
        AstFields::Tuple(types) => {
            push_after(text, "(", name)?;
            push_spaced(text, " ", types.as_slice())?;
            text.push_str(")")
        }
    }
}

// Appends variants, each on a line of its own that is set in.
fn push_variants(text: &mut String, variants: &[AstVariant]) -> Result<(), AllocError>
    ensures { OnOk result
        (string_bytes text.new ≡ string_bytes text.old ++ variants_text variants.now) }
{
    for variant in variants {
        text.push_str("\n  ")?;
        push_variant(text, &variant.name, &variant.fields)?;
    }
    Ok(())
}

/// Appends what a type is. The only error is want of memory.
pub fn push_body(text: &mut String, body: &AstBody) -> Result<(), AllocError>
    ensures { OnOk result
        (string_bytes text.new ≡ string_bytes text.old ++ body_text body.now) }
{
    match body {
        AstBody::Primitive(name) => push_last(text, "(primitive ", name),
        AstBody::Enum(variants) => {
            text.push_str("(enum")?;
            push_variants(text, variants.as_slice())?;
            text.push_str(")")
        }
        AstBody::Struct(fields) => {
            text.push_str("(struct")?;
            push_shape(text, fields)?;
            text.push_str(")")
        }
    }
}
