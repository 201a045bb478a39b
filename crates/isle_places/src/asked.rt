//! What types ask of the fields of values.

ghost use Rattle.std.specs.Prelude.{◌≡◌, option_map};
ghost use Rattle.isle_places.specs.AskedViews.{asked};
ghost use Rattle.isle_places.specs.DeclaredTypes as declared;

use crate::fields::FieldsByName;
use crate::types::Types;
use isle_spelling::{int_type_named, is_same};

/// The fields that a type asks of a variant or a struct, any, or that it has no such variant and is no such struct.
#[derive(Clone, Copy)]
pub enum Asked<'t, 'p> {
    Fields(&'t FieldsByName<'p>),
    Anything,
    Nowhere,
}

// Whether a name is that of a type that is not builtin.
fn is_foreign(name: &str) -> bool
    ensures { result ≡ declared.is_foreign name.now }
{
    if is_same("", name) {
        return false;
    }
    if is_same("bool", name) {
        return false;
    }
    match int_type_named(name) {
        Some(_) => false,
        None => true,
    }
}

// What is asked of what may have these fields.
fn of_fields<'t, 'p>(fields: Option<&'t FieldsByName<'p>>) -> Asked<'t, 'p>
    ensures { asked result ≡ declared.of_fields (option_map (λ fs. fs.now) fields.entry) }
{
    match fields {
        Some(fields) => Asked::Fields(fields),
        None => Asked::Nowhere,
    }
}

// What a type asks that isn't declared.
fn foreign_asked<'t, 'p>(name: &str) -> Asked<'t, 'p>
    ensures { asked result ≡ declared.foreign_asked name.now }
{
    if is_foreign(name) {
        Asked::Anything
    } else {
        Asked::Nowhere
    }
}

/// Returns what the type of this name asks of a variant of an enum.
pub fn variant_asked<'t, 'p>(
    types: &'t Types<'p>,
    name: &str,
    ty: &str,
    variant: &str,
) -> Asked<'t, 'p>
    ensures { asked result ≡ declared.variant_asked types.now name.now ty.now variant.now }
{
    if !is_same(name, ty) {
        return Asked::Nowhere;
    }
    let Some(item) = types.named(name) else {
        return foreign_asked(name);
    };
    of_fields(item.variant(variant))
}

/// Returns what the type of this name asks of a struct.
pub fn struct_asked<'t, 'p>(types: &'t Types<'p>, name: &str, ty: &str) -> Asked<'t, 'p>
    ensures { asked result ≡ declared.struct_asked types.now name.now ty.now }
{
    if !is_same(name, ty) {
        return Asked::Nowhere;
    }
    let Some(item) = types.named(name) else {
        return foreign_asked(name);
    };
    of_fields(item.own())
}

/// Tells whether the type of this name takes opaque numbers under a name.
pub fn takes_opaque(types: &Types<'_>, name: &str, ty: &str) -> bool
    ensures { result ≡ declared.takes_opaque types.now name.now ty.now }
{
    if !is_same(name, ty) {
        return false;
    }
    match types.named(name) {
        Some(_) => false,
        None => is_foreign(name),
    }
}
