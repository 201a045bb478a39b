//! What numbers of primitive types and names stand for.

ghost use Rattle.std.specs.Prelude.{◌≡◌, [], Some, None, IfOk};
ghost use Rattle.isle_core.specs.Having.{const_of};
ghost use Rattle.isle_core.specs.SameInRun.{same_in_run};
ghost use Rattle.isle_core.specs.Value.{Opaque, Struct, NoField};
ghost use Rattle.isle_core.specs.ValueViews.{value, meaning};
ghost use Rattle.isle_tree.specs.Run as run;
ghost use Rattle.isle_tree.specs.Run.{name_value};

use crate::frame::Frame;
use crate::holding::is_equal;
use isle_core::{List, Text, Value};
use isle_outcomes::{copied, same};
use isle_tree::Operand;
use std::alloc::{AllocError, Global};

/// Returns a number of a primitive type, whose name a run doesn't know.
#[tactic(auto, using(isle_outcomes::proofs::SeesValues::sees_values))]
pub fn unnamed(alloc: Global, number: i128) -> Value
    ensures { value result ≡ Opaque [] number }
{
    Value::Opaque(Text::new(String::new(alloc)), number)
}

// The unit struct of a name.
#[tactic(auto, using(isle_outcomes::proofs::SeesValues::sees_values))]
fn unit_struct(alloc: Global, name: &str) -> Result<Value, AllocError>
    ensures { IfOk result (λ v. value v ≡ run.name_value None name.now) }
{
    let ty = Text::copied(alloc, name)?;
    Ok(Value::Struct(ty, List::new(Vec::new(alloc))))
}

/// Returns what a name stands for: the value of a constant, or else the unit struct of the name.
pub fn named(alloc: Global, frame: &Frame<'_>, name: &str) -> Result<Value, AllocError>
    ensures { IfOk result (λ v.
        value v ≡ name_value (const_of (meaning frame.now.calls.answers) name.now) name.now) }
{
    match frame.calls.constant(name) {
        Some(given) => copied(alloc, given),
        None => unit_struct(alloc, name),
    }
}

// Whether a value is the unit struct of a name.
#[tactic(auto, using(isle_outcomes::proofs::SeesValues::sees_values, crate::proofs::UnitStructs::no_fields), unfolding(isle_core::specs::SameInRun::same_in_run))]
fn is_unit_struct(one: &Value, name: &str) -> bool
    ensures { result ≡ same_in_run (value one.now) (Struct name.now NoField) }
{
    match one {
        Value::Struct(ty, fields) => ty.as_str() == name && fields.as_slice().is_empty(),
        Value::Bool(_) | Value::Int(..) | Value::Opaque(..) | Value::Variant(..) => false,
    }
}

// Whether a value is what a name stands for.
fn is_named(frame: &Frame<'_>, one: &Value, name: &str) -> bool
    ensures { result
        ≡ same_in_run (value one.now)
        (name_value (const_of (meaning frame.now.calls.answers) name.now) name.now) }
{
    match frame.calls.constant(name) {
        Some(given) => same(one, given),
        None => is_unit_struct(one, name),
    }
}

/// Tells whether a value is what a constant of a pattern stands for.
#[tactic(auto, using(isle_outcomes::proofs::SeesValues::sees_values))]
pub fn is_constant(alloc: Global, frame: &Frame<'_>, one: &Value, operand: &Operand) -> bool
    ensures { result
        ≡ run.are_same (Some (value one.now))
        (run.constant (meaning frame.now.calls.answers) operand.now) }
{
    match operand {
        Operand::Bool(truth) => is_equal(one, Value::Bool(*truth)),
        Operand::Int(ty, number) => is_equal(one, Value::Int(*ty, *number)),
        Operand::Raw(number) => is_equal(one, unnamed(alloc, *number)),
        Operand::Name(name) => is_named(frame, one, name.as_str()),
        Operand::Local(_) | Operand::Arg(_) => false,
    }
}
