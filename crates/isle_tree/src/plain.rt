//! Which declared types have no fields.

ghost use Rattle.std.specs.Prelude.{◌≡◌};
ghost use Rattle.isle_tree.specs.Plain.{is_unit, are_unit, is_plain};

use crate::tree::{TFields, TypeBody};
use isle_core::Text;

// Whether a variant or a struct has no fields.
fn is_unit(fields: &TFields) -> bool
    ensures { result ≡ is_unit fields.now }
{
    match fields {
        TFields::Unit => true,
        TFields::Named(_) | TFields::Tuple(_) => false,
    }
}

// Whether no variant has fields.
fn are_unit(variants: &[(Text, TFields)]) -> bool
    ensures { result ≡ are_unit variants.now }
{
    for variant in variants {
        if !is_unit(&variant.1) {
            return false;
        }
    }
    true
}

/// Tells whether no value of the type has fields.
pub fn is_plain(body: &TypeBody) -> bool
    ensures { result ≡ is_plain body.now }
{
    match body {
        TypeBody::Enum(variants) => are_unit(variants.as_slice()),
        TypeBody::Struct(fields) => is_unit(fields),
    }
}
