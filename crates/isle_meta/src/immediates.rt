//! The types of immediates, and their values.

ghost use Rattle.std.specs.Prelude.{◌≡◌, ◌++◌, ◌∷◌, [], ◌&&◌, List, ℕ, false, IfOk, OnOk};
ghost use Rattle.isle_lawful_names.specs.NameSet.{HasNames};
ghost use Rattle.isle_meta.specs.declared.clif.ImmField.{ImmField as FieldRow};
ghost use Rattle.isle_meta.specs.Immediates.{are_among, are_misshapen, has_others, imm_names};
ghost use Rattle.isle_meta.specs.Immediates.{is_misshapen, same_values, type_of, values_of};
ghost use Rattle.isle_meta.specs.KnownTypes.{KnowsTypes};
ghost use Rattle.isle_meta.specs.TableNames.{repeats, texts};

use crate::clif::ImmField;
use crate::paths::short_name;
use crate::repeats::has_repeat;
use isle_core::Text;
use isle_lawful_names::{added, is_new};
use std::alloc::{AllocError, Global};
use std::collections::{BTreeMap, BTreeSet};

// Puts the values of a type behind names.
fn push_values<'t>(names: &mut Vec<&'t str>, field: &'t ImmField) -> Result<(), AllocError>
    ensures { OnOk result
        (texts names.new.items ≡ texts names.old.items ++ values_of field.now) }
{
    match &field.values {
        Some(values) => push_texts(names, values.as_slice()),
        None => Ok(()),
    }
}

// Puts texts behind names.
fn push_texts<'t>(names: &mut Vec<&'t str>, values: &'t [Text]) -> Result<(), AllocError>
    ensures { OnOk result (texts names.new.items ≡ texts names.old.items ++ values.now) }
{
    for value in values {
        names.push(value.as_str())?;
    }
    Ok(())
}

/// Puts the names of an immediate behind names: its member, its short name and its values. The only error is want of
/// memory.
pub fn push_imm_names<'t>(names: &mut Vec<&'t str>, field: &'t ImmField) -> Result<(), AllocError>
    ensures { OnOk result
        (texts names.new.items ≡ texts names.old.items ++ imm_names field.now) }
{
    names.push(field.member.as_str())?;
    names.push(short_name(field.rust_type.as_str()))?;
    push_values(names, field)
}

// Whether a value of a type stands twice.
fn has_value_twice(alloc: Global, field: &ImmField) -> Result<bool, AllocError>
    ensures { IfOk result (λ found. found ≡ repeats (values_of field.now)) }
{
    let mut values = Vec::new(alloc);
    push_values(&mut values, field)?;
    has_repeat(alloc, values.as_slice())
}

// The set of values.
fn value_set<'t>(alloc: Global, values: &'t [Text]) -> Result<BTreeSet<&'t str>, AllocError>
    ensures { IfOk result (λ set. HasNames values.now set) }
{
    let mut set = BTreeSet::new(alloc);
    for value in values {
        let _fresh = added(&mut set, value.as_str())?;
    }
    Ok(set)
}

// Whether each value is in the set.
fn are_in(values: &[Text], set: &BTreeSet<&str>) -> bool
    ensures { (names : List (List ℕ)) → HasNames names set.now
        → result ≡ are_among values.now names }
{
    for value in values {
        let missing = is_new(set, value.as_str());
        if missing {
            return false;
        }
    }
    true
}

// Whether two lists have the same values. If the first has none twice, as many steps are made as the second is long.
fn are_same(alloc: Global, first: &[Text], values: &[Text]) -> Result<bool, AllocError>
    ensures { IfOk result (λ same.
        same ≡ (are_among first.now values.now && are_among values.now first.now)) }
{
    let known = value_set(alloc, values)?;
    let within = are_in(first, &known);
    if !within {
        return Ok(false);
    }
    let earlier = value_set(alloc, first)?;
    Ok(are_in(values, &earlier))
}

// Whether the types of two immediates have the same values.
fn have_same(alloc: Global, first: &ImmField, field: &ImmField) -> Result<bool, AllocError>
    ensures { IfOk result (λ same. same ≡ same_values first.now.values field.now.values) }
{
    match &first.values {
        None => Ok(field.values.is_none()),
        Some(earlier) => match &field.values {
            None => Ok(false),
            Some(values) => are_same(alloc, earlier.as_slice(), values.as_slice()),
        },
    }
}

// Whether an earlier field has a type of the short name with other values. A new type is noted.
fn meets_others<'t>(
    alloc: Global,
    types: &mut BTreeMap<&'t str, &'t ImmField>,
    field: &'t ImmField,
) -> Result<bool, AllocError>
    ensures told { (earlier : List FieldRow) → KnowsTypes earlier types.old
        → IfOk result (λ found.
        found ≡ has_others earlier (type_of field.now) field.now.values) }
    ensures more { (earlier : List FieldRow) → KnowsTypes earlier types.old
        → IfOk result (λ found.
        found ≡ false → KnowsTypes (earlier ++ field.now ∷ []) types.new) }
{
    let name = short_name(field.rust_type.as_str());
    match types.get(name) {
        Some(first) => {
            let same = have_same(alloc, first, field)?;
            Ok(!same)
        }
        None => {
            types.insert(name, field)?;
            Ok(false)
        }
    }
}

// Whether a value of the field's type repeats, or an earlier field has a type of its short name with other values.
fn is_misshapen<'t>(
    alloc: Global,
    types: &mut BTreeMap<&'t str, &'t ImmField>,
    field: &'t ImmField,
) -> Result<bool, AllocError>
    ensures told { (earlier : List FieldRow) → KnowsTypes earlier types.old
        → IfOk result (λ found. found ≡ is_misshapen earlier field.now) }
    ensures more { (earlier : List FieldRow) → KnowsTypes earlier types.old
        → IfOk result (λ found.
        found ≡ false → KnowsTypes (earlier ++ field.now ∷ []) types.new) }
{
    let twice = has_value_twice(alloc, field)?;
    if twice {
        return Ok(true);
    }
    meets_others(alloc, types, field)
}

/// Tells whether the type of one of the fields has a value twice, or other values than at an earlier field; if none
/// does, the map has their types too. The only error is want of memory.
pub fn are_misshapen<'t>(
    alloc: Global,
    types: &mut BTreeMap<&'t str, &'t ImmField>,
    fields: &'t [ImmField],
) -> Result<bool, AllocError>
    ensures told { (earlier : List FieldRow) → KnowsTypes earlier types.old
        → IfOk result (λ found. found ≡ are_misshapen earlier fields.now) }
    ensures more { (earlier : List FieldRow) → KnowsTypes earlier types.old
        → IfOk result (λ found.
        found ≡ false → KnowsTypes (earlier ++ fields.now) types.new) }
{
    for field in fields {
        let found = is_misshapen(alloc, types, field)?;
        if found {
            return Ok(true);
        }
    }
    Ok(false)
}
