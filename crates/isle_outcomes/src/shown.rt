//! Values and callees as they are shown.

ghost use Rattle.std.specs.Prelude.{◌≡◌, ◌++◌, OnOk, codes, string_bytes, ℤ, pos};
ghost use Rattle.isle_core.specs.Value.{Variant, Struct};
ghost use Rattle.isle_core.specs.ValueViews.{value};
ghost use Rattle.isle_printer.specs.Number.{numeral};
ghost use Rattle.isle_outcomes.specs.Shown.{truth_text, number_text, shown, variant_head, struct_head};
ghost use Rattle.isle_outcomes.specs.Shown.{value_text, fields_text, callee_text};
ghost use Rattle.isle_outcomes.specs.Fields.{fields};

use isle_core::{Callee, IntType, Text, Value};
use isle_printer::push_numeral;
use std::alloc::AllocError;

// Appends a number in decimal.
fn push_number(out: &mut String, number: i128) -> Result<(), AllocError>
    ensures { OnOk result (string_bytes out.new ≡ string_bytes out.old ++ number_text number) }
{
    if number < 0 {
        out.push_str("-")?;
    }
    push_numeral(out, number.unsigned_abs(), 10)
}

// Appends a number of a type.
fn push_int(out: &mut String, ty: IntType, number: i128) -> Result<(), AllocError>
    ensures { OnOk result
        (string_bytes out.new ≡ string_bytes out.old ++ number_text (shown ty number)) }
{
    match ty {
        IntType::U128 => push_numeral(out, number.cast_unsigned(), 10),
        _ => push_number(out, number),
    }
}

// Appends a truth.
fn push_truth(out: &mut String, truth: bool) -> Result<(), AllocError>
    ensures { OnOk result (string_bytes out.new ≡ string_bytes out.old ++ truth_text truth) }
{
    out.push_str(if truth { "true" } else { "false" })
}

// Appends what stands before the fields of a variant.
fn push_variant_head(out: &mut String, ty: &str, variant: &str) -> Result<(), AllocError>
    ensures { OnOk result
        (string_bytes out.new ≡ string_bytes out.old ++ variant_head ty.now variant.now) }
{
    out.push_str("(")?;
    out.push_str(ty)?;
    out.push_str(".")?;
    out.push_str(variant)
}

// Appends what stands before those of a struct.
fn push_struct_head(out: &mut String, ty: &str) -> Result<(), AllocError>
    ensures { OnOk result (string_bytes out.new ≡ string_bytes out.old ++ struct_head ty.now) }
{
    out.push_str("(")?;
    out.push_str(ty)
}

/// Appends a value.
#[cycle(pushing)]
#[tactic(auto, using(crate::proofs::SeesValues::sees_values))]
pub fn push_value(out: &mut String, given: &Value) -> Result<(), AllocError>
    ensures { OnOk result
        (string_bytes out.new ≡ string_bytes out.old ++ value_text (value given.now)) }
{
    match given {
        Value::Bool(truth) => push_truth(out, *truth),
        Value::Int(ty, number) => push_int(out, *ty, *number),
        Value::Opaque(_, number) => push_number(out, *number),
        Value::Variant(ty, variant, fields) => {
            push_variant(out, ty.as_str(), variant.as_str(), fields.as_slice())
        }
        Value::Struct(ty, fields) => push_struct(out, ty.as_str(), fields.as_slice()),
    }
}

// Appends a variant.
#[cycle(pushing)]
fn push_variant(
    out: &mut String,
    ty: &str,
    variant: &str,
    given: &[(Text, Value)],
) -> Result<(), AllocError>
    ensures { OnOk result
        (string_bytes out.new
        ≡ string_bytes out.old ++ value_text (Variant ty.now variant.now (fields given.now))) }
{
    push_variant_head(out, ty, variant)?;
    push_closed(out, given)
}

// Appends a struct.
#[cycle(pushing)]
fn push_struct(out: &mut String, ty: &str, given: &[(Text, Value)]) -> Result<(), AllocError>
    ensures { OnOk result
        (string_bytes out.new
        ≡ string_bytes out.old ++ value_text (Struct ty.now (fields given.now))) }
{
    push_struct_head(out, ty)?;
    push_closed(out, given)
}

// Appends the fields of a value, and the parenthesis after them.
#[cycle(pushing)]
fn push_closed(out: &mut String, given: &[(Text, Value)]) -> Result<(), AllocError>
    ensures { OnOk result
        (string_bytes out.new
        ≡ string_bytes out.old ++ (fields_text (fields given.now) ++ codes ")")) }
{
    push_fields(out, given)?;
    out.push_str(")")
}

// Appends each field after a blank.
#[cycle(pushing)]
fn push_fields(out: &mut String, given: &[(Text, Value)]) -> Result<(), AllocError>
    ensures { OnOk result
        (string_bytes out.new ≡ string_bytes out.old ++ fields_text (fields given.now)) }
{
    for field in given {
        out.push_str(" ")?;
        push_value(out, &field.1)?;
    }
    Ok(())
}

/// Appends what a call goes to.
pub fn push_callee(out: &mut String, callee: &Callee) -> Result<(), AllocError>
    ensures { OnOk result (string_bytes out.new ≡ string_bytes out.old ++ callee_text callee.now) }
{
    match callee {
        Callee::External(name) => {
            out.push_str("C::")?;
            out.push_str(name.as_str())
        }
        Callee::Internal(term) => {
            out.push_str("constructor_")?;
            out.push_str(term.as_str())
        }
    }
}
