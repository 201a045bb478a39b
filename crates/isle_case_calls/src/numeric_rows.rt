//! Numeric operations, held against rows that were worked out apart (`tools/numeric_rows.py`).

ghost use Rattle.std.specs.Prelude.{IfSome};
ghost use Rattle.isle_numerics.specs.NumericTypes.{IsNumeric};

use isle_case_reading::slip::Slip;
use isle_numerics::{NumericType, OpResult, eval_op, ops_for_type};
use std::alloc::{AllocError, Global};

// The type of this name.
fn type_named(name: &str) -> Option<NumericType>
    ensures { IfSome result IsNumeric }
{
    let (signed, byte_width) = match name {
        "i8" => (true, 1),
        "u8" => (false, 1),
        "i16" => (true, 2),
        "u16" => (false, 2),
        "i32" => (true, 4),
        "u32" => (false, 4),
        "i64" => (true, 8),
        "u64" => (false, 8),
        "i128" => (true, 16),
        "u128" => (false, 16),
        _ => return None,
    };
    Some(NumericType { signed, byte_width })
}

// What an operation gives, as rows have it.
fn shown(alloc: Global, given: Option<OpResult>) -> Result<String, AllocError> {
    match given {
        Some(OpResult::Number(number)) => format!(in alloc; "{number}"),
        Some(OpResult::Flag(true)) => String::from_str(alloc, "true"),
        Some(OpResult::Flag(false)) => String::from_str(alloc, "false"),
        Some(OpResult::Nothing) => String::from_str(alloc, "nothing"),
        Some(OpResult::Panic) => String::from_str(alloc, "panic"),
        None => String::from_str(alloc, "none"),
    }
}

// Whether a type has so many operations.
fn has_count(alloc: Global, ty: NumericType, count: &str) -> Result<bool, Slip>
    requires { IsNumeric ty }
{
    match ops_for_type(alloc, ty) {
        Ok(ops) => Ok(count.parse::<usize>() == Ok(ops.len())),
        Err(_) => Err(Slip::Memory),
    }
}

// Whether an operation of a type gives at two numbers what its row has, these being the words after it.
fn gives(alloc: Global, ty: NumericType, op: &str, words: &[&str]) -> Result<bool, Slip>
    requires { IsNumeric ty }
{
    let [a, b, wanted] = words else {
        return Ok(false);
    };
    let (Ok(a), Ok(b)) = (a.parse::<i128>(), b.parse::<i128>()) else {
        return Ok(false);
    };
    Ok(shown(alloc, eval_op(ty, op, a, b))?.as_str() == *wanted)
}

// Whether a row holds.
fn holds(alloc: Global, words: &[&str]) -> Result<bool, Slip> {
    let [name, op, rest @ ..] = words else {
        return Ok(false);
    };
    let Some(ty) = type_named(name) else {
        return Ok(false);
    };
    match (*op, rest) {
        ("has", [count]) => has_count(alloc, ty, count),
        (op, rest) => gives(alloc, ty, op, rest),
    }
}

/// Holds each row of a text, and tells those that don't hold.
pub fn hold_rows(alloc: Global, rows: &str, told: &mut String) -> Result<(), Slip> {
    let mut slips = 0usize;
    for row in rows.lines() {
        if row.starts_with('#') {
            continue;
        }
        let mut words = Vec::new(alloc);
        for word in row.split(' ') {
            words.push(word)?;
        }
        if !holds(alloc, words.as_slice())? {
            told.push_str("\n")?;
            told.push_str(row)?;
            slips = slips.saturating_add(1);
        }
    }
    if slips == 0 { Ok(()) } else { Err(Slip::Lines) }
}
