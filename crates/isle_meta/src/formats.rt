//! Formats that aren't supported.

ghost use Rattle.std.specs.Prelude.{◌≡◌, ◌↔◌, ◌++◌, ◌∷◌, [], ◌||◌, List, ℕ, false, map, option_map};
ghost use Rattle.std.specs.Prelude.{IfOk, OnOk, IsTrue};
ghost use Rattle.std.specs.List.{AllByRecursion};
ghost use Rattle.std.specs.Option.{option_to_list};
ghost use denote.Ref.{Bor};
ghost use Rattle.isle_lawful_names.specs.NameSet.{HasNames};
ghost use Rattle.isle_meta.specs.declared.clif.InstructionFormat.{InstructionFormat as Row};
ghost use Rattle.isle_meta.specs.FormatRow as Format;
ghost use Rattle.isle_meta.specs.Immediates.{type_of};
ghost use Rattle.isle_meta.specs.KnownTypes.{KnowsTypes};
ghost use Rattle.isle_meta.specs.ClifRows.{FormatBreaks, IsFirstFormat};
ghost use Rattle.isle_meta.specs.TableNames.{is_among, repeats, texts, IsImmediateType};
ghost use Rattle.isle_meta.specs.Told.{found_row, Tells};

use crate::clif::{ImmField, InstructionFormat};
use crate::faults::{Faults, first_shape};
use crate::immediates::{are_misshapen, push_imm_names};
use crate::kept_names::{are_all_identifiers, is_immediate_type};
use crate::paths::short_name;
use crate::repeats::has_repeat;
use crate::shapes::Shape;
use isle_lawful_names::added;
use std::alloc::{AllocError, Global};
use std::collections::{BTreeMap, BTreeSet};

// The names of a format: its own, and those of its immediates.
fn format_names<'t>(
    alloc: Global,
    format: &'t InstructionFormat,
) -> Result<Vec<&'t str>, AllocError>
    ensures { IfOk result (λ names. texts names.items ≡ Format.format_names format.now) }
{
    let mut names = Vec::new(alloc);
    names.push(format.name.as_str())?;
    for field in format.imm_fields.as_slice() {
        push_imm_names(&mut names, field)?;
    }
    Ok(names)
}

// Whether one of its names is no identifier.
fn has_bad_name(alloc: Global, format: &InstructionFormat) -> Result<bool, AllocError>
    ensures { IfOk result (λ bad. IsTrue bad ↔ Format.BadName format.now) }
{
    let names = format_names(alloc, format)?;
    let lawful = are_all_identifiers(names.as_slice());
    Ok(!lawful)
}

// The field of its values.
fn values_field(format: &InstructionFormat) -> Option<&'static str>
    ensures { option_map (λ (name : Bor (List ℕ)). name.now) result
        ≡ Format.values_field format.now }
{
    if format.has_value_list || format.num_value_operands > 1 {
        Some("args")
    } else if format.num_value_operands == 1 {
        Some("arg")
    } else {
        None
    }
}

// The field of its blocks.
fn blocks_field(format: &InstructionFormat) -> Option<&'static str>
    ensures { option_map (λ (name : Bor (List ℕ)). name.now) result
        ≡ Format.blocks_field format.now }
{
    if format.num_block_operands > 1 {
        Some("blocks")
    } else if format.num_block_operands == 1 {
        Some("destination")
    } else {
        None
    }
}

// The field of its raw block.
fn raw_block_field(format: &InstructionFormat) -> Option<&'static str>
    ensures { option_map (λ (name : Bor (List ℕ)). name.now) result
        ≡ Format.raw_block_field format.now }
{
    if format.num_raw_block_operands == 1 {
        Some("block")
    } else {
        None
    }
}

// Puts a field that is there behind names.
fn push_field<'t>(names: &mut Vec<&'t str>, field: Option<&'t str>) -> Result<(), AllocError>
    ensures { OnOk result
        (texts names.new.items
        ≡ texts names.old.items
        ++ option_to_list (option_map (λ (name : Bor (List ℕ)). name.now) field.entry)) }
{
    if let Some(name) = field {
        names.push(name)?;
    }
    Ok(())
}

// The fields of its data that are no immediates.
fn fixed_fields(alloc: Global, format: &InstructionFormat) -> Result<Vec<&'static str>, AllocError>
    ensures { IfOk result (λ names. texts names.items ≡ Format.fixed_fields format.now) }
{
    let mut names = Vec::new(alloc);
    names.push("opcode")?;
    push_field(&mut names, values_field(format))?;
    push_field(&mut names, blocks_field(format))?;
    push_field(&mut names, raw_block_field(format))?;
    Ok(names)
}

// All fields of its data.
fn field_names<'t>(alloc: Global, format: &'t InstructionFormat) -> Result<Vec<&'t str>, AllocError>
    ensures { IfOk result (λ names. texts names.items ≡ Format.field_names format.now) }
{
    let mut names: Vec<&'t str> = fixed_fields(alloc, format)?;
    for field in format.imm_fields.as_slice() {
        names.push(field.member.as_str())?;
    }
    Ok(names)
}

// Whether two of its fields have one name.
fn has_repeated_field(alloc: Global, format: &InstructionFormat) -> Result<bool, AllocError>
    ensures { IfOk result (λ found. found ≡ repeats (Format.field_names format.now)) }
{
    let names = field_names(alloc, format)?;
    has_repeat(alloc, names.as_slice())
}

// Whether its name is among the earlier ones, to which it is added, or two of its fields have one name.
fn has_repeated_name<'t>(
    alloc: Global,
    format: &'t InstructionFormat,
    names: &mut BTreeSet<&'t str>,
) -> Result<bool, AllocError>
    ensures told { (earlier : List (List ℕ)) → HasNames earlier names.old
        → IfOk result (λ found.
        found ≡ (is_among format.now.name earlier || repeats (Format.field_names format.now))) }
    ensures more { (earlier : List (List ℕ)) → HasNames earlier names.old
        → OnOk result (HasNames (earlier ++ format.now.name ∷ []) names.new) }
{
    let repeated = has_repeated_field(alloc, format)?;
    let fresh = added(names, format.name.as_str())?;
    Ok(!fresh | repeated)
}

// Whether all immediates may have their types.
fn are_immediate_types(fields: &[ImmField]) -> bool
    ensures { IsTrue result ↔ AllByRecursion IsImmediateType (map type_of fields.now) }
{
    for field in fields {
        if !is_immediate_type(short_name(field.rust_type.as_str())) {
            return false;
        }
    }
    true
}

// Whether the type of one of its immediates is something else's.
fn has_reserved_name(format: &InstructionFormat) -> bool
    ensures { IsTrue result ↔ Format.ReservedName format.now }
{
    let free = are_immediate_types(format.imm_fields.as_slice());
    !free
}

// Whether it has more than two blocks.
fn has_many_blocks(format: &InstructionFormat) -> bool
    ensures { IsTrue result ↔ Format.BlockCount format.now }
{
    format.num_block_operands > 2
}

// Whether it has more than one raw block.
fn has_raw_blocks(format: &InstructionFormat) -> bool
    ensures { IsTrue result ↔ Format.RawBlockCount format.now }
{
    format.num_raw_block_operands > 1
}

// Whether it has several values, no list of them, and no operand with the controlling type.
fn lacks_typevar(format: &InstructionFormat) -> bool
    ensures { IsTrue result ↔ Format.NoTypevar format.now }
{
    if format.has_value_list {
        return false;
    }
    if format.num_value_operands <= 1 {
        return false;
    }
    format.typevar_operand.is_none()
}

// The shapes that a format breaks after those whose names and types are known. Its own are added; the types only if its
// immediates break no shape.
fn format_faults<'t>(
    alloc: Global,
    format: &'t InstructionFormat,
    names: &mut BTreeSet<&'t str>,
    types: &mut BTreeMap<&'t str, &'t ImmField>,
) -> Result<Faults, AllocError>
    ensures told { (before : List Row) → HasNames (Format.own_names before) names.old
        → KnowsTypes (Format.all_fields before) types.old
        → IfOk result (λ faults. Tells faults (FormatBreaks before format.now)) }
    ensures names { (before : List Row) → HasNames (Format.own_names before) names.old
        → OnOk result (HasNames (Format.own_names before ++ format.now.name ∷ []) names.new) }
    ensures types { (before : List Row) → KnowsTypes (Format.all_fields before) types.old
        → IfOk result (λ faults. faults.imm_shape ≡ false
        → KnowsTypes (Format.all_fields before ++ format.now.imm_fields) types.new) }
{
    let bad_name = has_bad_name(alloc, format)?;
    let repeated_name = has_repeated_name(alloc, format, names)?;
    let imm_shape = are_misshapen(alloc, types, format.imm_fields.as_slice())?;
    Ok(Faults {
        bad_name,
        repeated_name,
        reserved_name: has_reserved_name(format),
        ty_operand: false,
        format_index: false,
        value_count: false,
        block_count: has_many_blocks(format),
        raw_block_count: has_raw_blocks(format),
        imm_count: false,
        imm_type: false,
        imm_shape,
        no_varargs: false,
        no_typevar: lacks_typevar(format),
    })
}

/// Returns the name of the first format that breaks a shape, and the first shape that it breaks. The only error is want
/// of memory.
pub fn unsupported_format<'t>(
    alloc: Global,
    formats: &'t [InstructionFormat],
) -> Result<Option<(&'t str, Shape)>, AllocError>
    ensures { IfOk result (λ found. IsFirstFormat formats.now (found_row found)) }
{
    let mut names = BTreeSet::new(alloc);
    let mut types = BTreeMap::new(alloc);
    for format in formats {
        let faults = format_faults(alloc, format, &mut names, &mut types)?;
        if let Some(shape) = first_shape(&faults) {
            return Ok(Some((format.name.as_str(), shape)));
        }
    }
    Ok(None)
}
