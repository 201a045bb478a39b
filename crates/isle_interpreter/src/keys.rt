//! Values as keys that are equal exactly if a run takes them for equal.

ghost use Rattle.std.specs.Prelude.{◌≡◌, ◌++◌, OnOk};
ghost use Rattle.isle_core.specs.ValueViews.{value};
ghost use Rattle.isle_interpreter.specs.Clashes.{name_key, truth_key, value_key, fields_key};
ghost use Rattle.isle_outcomes.specs.Fields.{fields};

use isle_core::{Text, Value};
use std::alloc::AllocError;

/// Appends a name: how many bytes it has, and these. The only error is want of memory.
pub fn push_name(key: &mut Vec<i128>, name: &str) -> Result<(), AllocError>
    ensures { OnOk result (key.new.items ≡ key.old.items ++ name_key name.now) }
{
    let bytes = name.as_bytes();
    key.push(bytes.len() as i128)?;
    for byte in bytes {
        key.push(*byte as i128)?;
    }
    Ok(())
}

// A truth as a number.
fn truth_key(truth: bool) -> i128
    ensures { result ≡ truth_key truth }
{
    if truth { 1 } else { 0 }
}

/// Appends a value as a run takes it. The only error is want of memory.
#[cycle(keys)]
#[tactic(auto, using(isle_outcomes::proofs::SeesValues::sees_values))]
pub fn push_value(key: &mut Vec<i128>, given: &Value) -> Result<(), AllocError>
    ensures { OnOk result (key.new.items ≡ key.old.items ++ value_key (value given.now)) }
{
    match given {
        Value::Bool(truth) => {
            key.push(0)?;
            Ok(key.push(truth_key(*truth))?)
        }
        Value::Int(ty, number) => {
            key.push(1)?;
            key.push(*number)?;
            push_name(key, ty.name())
        }
        Value::Opaque(_, number) => {
            key.push(2)?;
            Ok(key.push(*number)?)
        }
        Value::Variant(ty, variant, parts) => {
            key.push(3)?;
            push_name(key, ty.as_str())?;
            push_name(key, variant.as_str())?;
            push_fields(key, parts.as_slice())
        }
        Value::Struct(ty, parts) => {
            key.push(4)?;
            push_name(key, ty.as_str())?;
            push_fields(key, parts.as_slice())
        }
    }
}

// Appends fields, and that they end.
#[cycle(keys)]
fn push_fields(key: &mut Vec<i128>, given: &[(Text, Value)]) -> Result<(), AllocError>
    ensures { OnOk result (key.new.items ≡ key.old.items ++ fields_key (fields given.now)) }
{
    for field in given {
        key.push(6)?;
        push_name(key, field.0.as_str())?;
        push_value(key, &field.1)?;
    }
    Ok(key.push(5)?)
}
