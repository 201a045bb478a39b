//! The types of immediates, each once, in ascending order.

ghost use Rattle.std.specs.Prelude.{◌≡◌, ◌++◌, IfOk, OnOk, string_bytes, List};
ghost use Rattle.std.specs.List.{flat_map};
ghost use Rattle.isle_meta.specs.declared.clif.ImmField.{ImmField as FieldRow};
ghost use Rattle.isle_prelude.specs.FirstFields.{HasFirsts};
ghost use Rattle.isle_prelude.specs.Immediates.{enum_types, plain_types};
ghost use Rattle.isle_prelude.specs.Lent.{lent};
ghost use Rattle.isle_prelude.specs.TypePieces.{imm_enum_piece, imm_piece, is_kept};
ghost use Rattle.isle_prelude.specs.TypePieces.{primitive_piece, types_kept};

use crate::ascending::put;
use crate::first_fields::{first_fields, type_values};
use crate::paths::short_name;
use crate::types::{push_bare_enum, push_primitive};
use isle_meta::ImmField;
use std::alloc::{AllocError, Global};
use std::collections::{BTreeMap, BTreeSet};

// Whether an immediate is an enum, or else whether it is none.
fn is_kept(enums: bool, field: &ImmField) -> bool
    ensures { result ≡ is_kept enums field.now }
{
    let is_enum = field.values.is_some();
    if enums { is_enum } else { !is_enum }
}

// The types of immediates that are enums, or else of those that are none.
fn types_kept<'t>(
    alloc: Global,
    enums: bool,
    fields: &[&'t ImmField],
) -> Result<BTreeSet<&'t str>, AllocError>
    ensures { IfOk result (λ types. lent types.keys ≡ types_kept enums (lent fields.now)) }
{
    let mut types = BTreeSet::new(alloc);
    for field in fields {
        if is_kept(enums, field) {
            put(&mut types, short_name(field.rust_type.as_str()))?;
        }
    }
    Ok(types)
}

// Appends primitive types.
fn push_primitives(text: &mut String, names: &BTreeSet<&str>) -> Result<(), AllocError>
    ensures { OnOk result
        (string_bytes text.new
        ≡ string_bytes text.old ++ flat_map primitive_piece (lent names.now.keys)) }
{
    for name in names {
        push_primitive(text, name)?;
    }
    Ok(())
}

// Appends the enum of the immediates of a type.
fn push_imm_enum<'t>(
    alloc: Global,
    text: &mut String,
    types: &BTreeMap<&'t str, &'t ImmField>,
    name: &'t str,
) -> Result<(), AllocError>
    ensures { (fields : List FieldRow) → HasFirsts fields types.now → OnOk result
        (string_bytes text.new ≡ string_bytes text.old ++ imm_enum_piece fields name.now) }
{
    let values = type_values(alloc, types, name)?;
    push_bare_enum(text, name, &values)
}

// Appends the enums of these types.
fn push_imm_enums<'t>(
    alloc: Global,
    text: &mut String,
    types: &BTreeMap<&'t str, &'t ImmField>,
    names: &BTreeSet<&'t str>,
) -> Result<(), AllocError>
    ensures { (fields : List FieldRow) → HasFirsts fields types.now → OnOk result
        (string_bytes text.new
        ≡ string_bytes text.old ++ flat_map (imm_enum_piece fields) (lent names.now.keys)) }
{
    for name in names {
        push_imm_enum(alloc, text, types, name)?;
    }
    Ok(())
}

// Appends the types of immediates that are enums.
fn push_enum_types<'t>(
    alloc: Global,
    text: &mut String,
    fields: &[&'t ImmField],
) -> Result<(), AllocError>
    ensures { OnOk result
        (string_bytes text.new
        ≡ string_bytes text.old
        ++ flat_map (imm_enum_piece (lent fields.now)) (enum_types (lent fields.now))) }
{
    let types = first_fields(alloc, fields)?;
    let names = types_kept(alloc, true, fields)?;
    push_imm_enums(alloc, text, &types, &names)
}

// Appends the types of immediates that are no enums.
fn push_plain_types(
    alloc: Global,
    text: &mut String,
    fields: &[&ImmField],
) -> Result<(), AllocError>
    ensures { OnOk result
        (string_bytes text.new
        ≡ string_bytes text.old ++ flat_map primitive_piece (plain_types (lent fields.now))) }
{
    let names = types_kept(alloc, false, fields)?;
    push_primitives(text, &names)
}

/// Appends the types of immediates. The only error is want of memory.
pub fn push_imm_types(
    alloc: Global,
    text: &mut String,
    fields: &[&ImmField],
) -> Result<(), AllocError>
    ensures { OnOk result
        (string_bytes text.new ≡ string_bytes text.old ++ imm_piece (lent fields.now)) }
{
    push_plain_types(alloc, text, fields)?;
    push_primitive(text, "MemFlagsData")?;
    push_enum_types(alloc, text, fields)
}
