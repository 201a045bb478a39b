//! The constants that stand in a function with values.

ghost use Rattle.std.specs.Prelude.{◌≡◌, ◌++◌, ℕ, List, IfOk, OnOk, Some, None, map, option_map};
ghost use Rattle.std.specs.Prelude.{option_to_list, if◌then◌else◌};
ghost use Rattle.isle_core.specs.Having.{const_of};
ghost use Rattle.isle_core.specs.Meaning.{Meaning};
ghost use Rattle.isle_core.specs.ValueViews.{value, const};
ghost use Rattle.isle_interpreter.specs.Clashes.{place_key, held, held_at, all_held, const_in, at_constant};
ghost use Rattle.isle_operand_names.specs.Occurring.{occurs};
ghost use Rattle.isle_places.specs.ToldViews.{placed};
ghost use Rattle.isle_tree.specs.Views.{program};

use crate::constants::Constants;
use crate::keys::{push_name, push_value};
use isle_core::{Text, Value};
use isle_tree::Operand;
use std::alloc::{AllocError, Global};
use std::collections::BTreeMap;

/// The key of a constant's value at a place, and the constant's name if it has one.
#[derive(Drop)]
pub struct Holder<'s> {
    pub key: Vec<i128>,
    pub owner: Option<&'s str>,
}

/// Finds the values of constants by their names, of each name the first. The only error is want of memory.
pub fn by_constant<'s>(
    alloc: Global,
    consts: &'s [(Text, Value)],
) -> Result<BTreeMap<&'s str, &'s Value>, AllocError>
    ensures { IfOk result (λ found.
        (name : List ℕ) → at_constant found name ≡ const_in (map const consts.now) name) }
{
    let mut found = BTreeMap::new(alloc);
    for index in (0..consts.len()).rev() {
        let given = &consts[index];
        found.insert(given.0.as_str(), &given.1)?;
    }
    Ok(found)
}

// The key of a value at a place of a type.
fn key_of(alloc: Global, ty: &str, given: &Value) -> Result<Vec<i128>, AllocError>
    ensures { IfOk result (λ key. key.items ≡ place_key ty.now (value given.now)) }
{
    let mut key = Vec::new(alloc);
    push_name(&mut key, ty)?;
    push_value(&mut key, given)?;
    Ok(key)
}

// What holds a written value at a place of a type.
fn written_holder<'s>(
    alloc: Global,
    ty: &str,
    given: &Value,
) -> Result<Option<Holder<'s>>, AllocError>
    ensures { IfOk result (λ h.
        option_map held h ≡ Some (place_key ty.now (value given.now), None)) }
{
    let key = key_of(alloc, ty, given)?;
    Ok(Some(Holder { key, owner: None }))
}

// What holds the value that a name may have, at a place of a type.
fn named<'s>(
    alloc: Global,
    ty: &str,
    name: &'s str,
    given: Option<&Value>,
) -> Result<Option<Holder<'s>>, AllocError>
    ensures { IfOk result (λ h.
        option_map held h
        ≡ option_map (λ v. (place_key ty.now (value v.now), Some name.now)) given.entry) }
{
    match given {
        Some(given) => {
            let key = key_of(alloc, ty, given)?;
            Ok(Some(Holder {
                key,
                owner: Some(name),
            }))
        }
        None => Ok(None),
    }
}

// The value of a name that is a constant.
fn value_of<'g>(
    constants: &Constants<'_>,
    given: &BTreeMap<&'g str, &'g Value>,
    name: &str,
) -> Option<&'g Value>
    ensures { option_map (λ v. value v.now) result
        ≡ (if occurs (program constants.now) name.now then None else at_constant given.now
        name.now) }
{
    if constants.occurs(name) {
        return None;
    }
    given.get(name).copied()
}

// What holds a value at a place, where a constant with one stands there.
fn hold<'s>(
    alloc: Global,
    constants: &Constants<'_>,
    given: &BTreeMap<&'s str, &'s Value>,
    operand: &'s Operand,
    ty: &str,
) -> Result<Option<Holder<'s>>, AllocError>
    ensures { IfOk result (λ h.
        (m : Meaning) → ((name : List ℕ) → at_constant given.now name ≡ const_of m name)
        → option_map held h ≡ held_at (program constants.now) m (operand.now, ty.now)) }
{
    match operand {
        Operand::Name(name) => {
            let name = name.as_str();
            named(alloc, ty, name, value_of(constants, given, name))
        }
        Operand::Bool(truth) => written_holder(alloc, ty, &Value::Bool(*truth)),
        Operand::Int(of, number) => written_holder(alloc, ty, &Value::Int(*of, *number)),
        Operand::Raw(number) => {
            let nameless = Text::new(String::new(alloc));
            written_holder(alloc, ty, &Value::Opaque(nameless, *number))
        }
        Operand::Local(_) | Operand::Arg(_) => Ok(None),
    }
}

// Appends what holds a value, if something does.
fn push_some<'s>(found: &mut Vec<Holder<'s>>, holder: Option<Holder<'s>>) -> Result<(), AllocError>
    ensures { OnOk result
        (map held found.new.items
        ≡ map held found.old.items ++ option_to_list (option_map held holder.entry)) }
{
    match holder {
        Some(holder) => Ok(found.push(holder)?),
        None => Ok(()),
    }
}

/// Gathers what holds values at places, in order. The only error is want of memory.
pub fn holders<'s>(
    alloc: Global,
    constants: &Constants<'_>,
    given: &BTreeMap<&'s str, &'s Value>,
    places: &[(&'s Operand, &'s str)],
) -> Result<Vec<Holder<'s>>, AllocError>
    ensures { IfOk result (λ found.
        (m : Meaning) → ((name : List ℕ) → at_constant given.now name ≡ const_of m name)
        → map held found.items ≡ all_held (program constants.now) m (placed places.now)) }
{
    let mut found = Vec::new(alloc);
    for place in places {
        let one = hold(alloc, constants, given, place.0, place.1)?;
        push_some(&mut found, one)?;
    }
    Ok(found)
}
