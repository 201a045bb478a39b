//! What is known of fields, by their names.

ghost use Rattle.std.specs.Prelude.{◌≡◌, ◌<◌, ℕ, length, IfOk, option_map};
ghost use Rattle.std.specs.Fmt.{decimal};
ghost use Rattle.isle_places.specs.AskedViews.{asked as asked_of};
ghost use Rattle.isle_places.specs.DeclaredTypes.{These, tuple_fields};
ghost use Rattle.isle_places.specs.Told as told_of;
ghost use Rattle.isle_places.specs.ToldViews.{told};

use crate::asked::Asked;
use crate::numbered::{is_numbered, number_of};
use crate::told::Told;
use isle_core::Text;
use isle_tree::TFields;
use std::alloc::{AllocError, Global};

// What is known of a named field.
fn named_field<'s>(found: Option<&'s str>) -> Told<'s>
    ensures { told result ≡ told_of.typed_told (option_map (λ ty. ty.now) found.entry) }
{
    match found {
        Some(ty) => Told::AValue(ty),
        None => Told::Untold,
    }
}

// What is known of a field whose name may be this number.
fn field_at<'s>(
    alloc: Global,
    tys: &'s [Text],
    name: &str,
    index: usize,
) -> Result<Told<'s>, AllocError>
    requires { (i : ℕ) → i < length tys.now → name.now ≡ decimal i → i ≡ index }
    ensures { IfOk result (λ t.
        told t ≡ told_of.field_told (These (tuple_fields 0 tys.now)) name.now) }
{
    match tys.get(index) {
        Some(ty) => {
            if is_numbered(alloc, name, index)? {
                Ok(Told::AValue(ty.as_str()))
            } else {
                Ok(Told::Untold)
            }
        }
        None => Ok(Told::Untold),
    }
}

// What is known of a field whose name is its number.
fn numbered_field<'s>(alloc: Global, tys: &'s [Text], name: &str) -> Result<Told<'s>, AllocError>
    ensures { IfOk result (λ t.
        told t ≡ told_of.field_told (These (tuple_fields 0 tys.now)) name.now) }
{
    match number_of(name) {
        Some(index) => field_at(alloc, tys, name, index),
        None => Ok(Told::Untold),
    }
}

/// Returns what is known of the field of this name, of a type that asks so. The only error is want of memory.
pub fn field_told<'s>(
    alloc: Global,
    asked: Asked<'s, '_>,
    name: &str,
) -> Result<Told<'s>, AllocError>
    ensures { IfOk result (λ t. told t ≡ told_of.field_told (asked_of asked.entry) name.now) }
{
    let fields = match asked {
        Asked::Fields(fields) => fields,
        Asked::Anything | Asked::Nowhere => return Ok(Told::Untold),
    };
    match fields.in_order() {
        TFields::Unit => Ok(Told::Untold),
        TFields::Named(_) => Ok(named_field(fields.named(name))),
        TFields::Tuple(tys) => numbered_field(alloc, tys.as_slice(), name),
    }
}
