//! Which declared types a program may have.

ghost use Rattle.std.specs.Prelude.{◌↔◌, IsTrue};
ghost use Rattle.std.specs.List.{AllByRecursion};
ghost use Rattle.isle_tree.specs.WellFormed.{IsField, AreFields, IsVariant, IsTypeBody, IsTypeItem};

use crate::tree::{TFields, TypeBody, TypeItem};
use isle_core::Text;
use isle_spelling::{are_identifiers, is_identifier};

// Whether a field has a name of Rust, and so has its type.
fn is_field(field: &(Text, Text)) -> bool
    ensures { IsTrue result ↔ IsField field.now }
{
    if !is_identifier(field.0.as_str()) {
        return false;
    }
    is_identifier(field.1.as_str())
}

// Whether all fields have.
fn are_named(fields: &[(Text, Text)]) -> bool
    ensures { IsTrue result ↔ AllByRecursion IsField fields.now }
{
    for field in fields {
        if !is_field(field) {
            return false;
        }
    }
    true
}

// Whether a variant or a struct may have the fields.
fn are_fields(fields: &TFields) -> bool
    ensures { IsTrue result ↔ AreFields fields.now }
{
    match fields {
        TFields::Unit => true,
        TFields::Named(fields) => fields.as_slice().len() > 0 && are_named(fields.as_slice()),
        TFields::Tuple(tys) => tys.as_slice().len() > 0 && are_identifiers(tys.as_slice()),
    }
}

// Whether an enum may have the variant.
fn is_variant(variant: &(Text, TFields)) -> bool
    ensures { IsTrue result ↔ IsVariant variant.now }
{
    if !is_identifier(variant.0.as_str()) {
        return false;
    }
    are_fields(&variant.1)
}

// Whether it may have all of them.
fn are_variants(variants: &[(Text, TFields)]) -> bool
    ensures { IsTrue result ↔ AllByRecursion IsVariant variants.now }
{
    for variant in variants {
        if !is_variant(variant) {
            return false;
        }
    }
    true
}

// Whether a type may be made of it.
fn is_type_body(body: &TypeBody) -> bool
    ensures { IsTrue result ↔ IsTypeBody body.now }
{
    match body {
        TypeBody::Enum(variants) => are_variants(variants.as_slice()),
        TypeBody::Struct(fields) => are_fields(fields),
    }
}

// Whether a program may have the type.
fn is_type_item(item: &TypeItem) -> bool
    ensures { IsTrue result ↔ IsTypeItem item.now }
{
    if !is_identifier(item.name.as_str()) {
        return false;
    }
    is_type_body(&item.body)
}

/// Tells whether a program may have all of the types.
pub fn are_type_items(items: &[TypeItem]) -> bool
    ensures { IsTrue result ↔ AllByRecursion IsTypeItem items.now }
{
    for item in items {
        if !is_type_item(item) {
            return false;
        }
    }
    true
}
