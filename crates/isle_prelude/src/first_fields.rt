//! The first immediate of each type, and the values that it has.

ghost use Rattle.std.specs.Prelude.{◌≡◌, ◌++◌, ◌∷◌, [], List, IfOk, OnOk};
ghost use Rattle.isle_meta.specs.Immediates.{values_of};
ghost use Rattle.isle_meta.specs.declared.clif.ImmField.{ImmField as FieldRow};
ghost use Rattle.isle_prelude.specs.Ascending.{ascending};
ghost use Rattle.isle_prelude.specs.FirstFields.{HasFirsts};
ghost use Rattle.isle_prelude.specs.Immediates.{enum_values};
ghost use Rattle.isle_prelude.specs.Lent.{lent};

use crate::ascending::ascending;
use crate::paths::short_name;
use isle_meta::ImmField;
use std::alloc::{AllocError, Global};
use std::collections::{BTreeMap, BTreeSet};

// Notes an immediate, unless one of its type is there.
fn note_first<'t>(
    types: &mut BTreeMap<&'t str, &'t ImmField>,
    field: &'t ImmField,
) -> Result<(), AllocError>
    ensures { (earlier : List FieldRow) → HasFirsts earlier types.old
        → OnOk result (HasFirsts (earlier ++ field.now ∷ []) types.new) }
{
    let name = short_name(field.rust_type.as_str());
    if let Some(_first) = types.get(name) {
        return Ok(());
    }
    types.insert(name, field)?;
    Ok(())
}

/// Gives a map of the first immediate of each type. The only error is want of memory.
pub fn first_fields<'t>(
    alloc: Global,
    fields: &[&'t ImmField],
) -> Result<BTreeMap<&'t str, &'t ImmField>, AllocError>
    ensures { IfOk result (λ types. HasFirsts (lent fields.now) types) }
{
    let mut types = BTreeMap::new(alloc);
    for field in fields {
        note_first(&mut types, field)?;
    }
    Ok(types)
}

// The values of an immediate, in ascending order.
fn field_values(alloc: Global, field: &ImmField) -> Result<BTreeSet<&str>, AllocError>
    ensures { IfOk result (λ values. lent values.keys ≡ ascending (values_of field.now)) }
{
    match &field.values {
        Some(values) => ascending(alloc, values.as_slice()),
        None => Ok(BTreeSet::new(alloc)),
    }
}

/// Gives the values of a type by its first immediate, in ascending order; none if there is no immediate of the type.
/// The only error is want of memory.
pub fn type_values<'t>(
    alloc: Global,
    types: &BTreeMap<&'t str, &'t ImmField>,
    name: &str,
) -> Result<BTreeSet<&'t str>, AllocError>
    ensures { (fields : List FieldRow) → HasFirsts fields types.now
        → IfOk result (λ values. lent values.keys ≡ enum_values fields name.now) }
{
    match types.get(name) {
        Some(field) => field_values(alloc, field),
        None => Ok(BTreeSet::new(alloc)),
    }
}
