//! The methods of a type's operations.

ghost use Rattle.std.specs.Prelude.{◌≡◌, ◌++◌, OnOk, string_bytes};
ghost use Rattle.std.specs.List.{flat_map};
ghost use Rattle.isle_numerics.specs.declared.operation.Operation.TheVariants.{Ask};
ghost use Rattle.isle_numeric_methods.specs.Methods.{matching_method, operation_method};
ghost use Rattle.isle_numeric_methods.specs.Methods.{operation_methods, some_of, type_methods};

use crate::method::{push_argument, push_arguments, push_closing, push_head, push_opening};
use isle_core::OutOfMemory;
use isle_numerics::{NumericType, Operation, Predicate, given, operations};
use std::alloc::{AllocError, Global};

// Appends the method of an operation.
fn push_operation_method(
    text: &mut String,
    ty: &'static str,
    op: Operation,
) -> Result<(), AllocError>
    ensures { OnOk result
        (string_bytes text.new ≡ string_bytes text.old ++ operation_method ty.now op) }
{
    push_head(text, ty, "", op.name())?;
    push_arguments(text, ty, op.takes())?;
    push_opening(text, op.is_partial(), given(ty, op.gives()))?;
    text.push_str(op.body())?;
    push_closing(text)
}

// Appends what is true or false of the argument, as a value that is always there.
#[tactic(auto, unfolding(crate::specs::Methods::some_of))]
fn push_some(text: &mut String, body: &str) -> Result<(), AllocError>
    ensures { OnOk result
        (string_bytes text.new ≡ string_bytes text.old ++ some_of body.now) }
{
    text.push_str("Some(")?;
    text.push_str(body)?;
    text.push_str(")")
}

// Appends the method that answers a predicate's flag.
fn push_matching(text: &mut String, ty: &str, predicate: Predicate) -> Result<(), AllocError>
    ensures { OnOk result
        (string_bytes text.new
        ≡ string_bytes text.old ++ matching_method ty.now (Ask predicate)) }
{
    push_head(text, ty, "matches_", predicate.base())?;
    push_argument(text, "a", ty)?;
    push_opening(text, true, "bool")?;
    push_some(text, Operation::Ask(predicate).body())?;
    push_closing(text)
}

// Appends an operation's method, and after a predicate's that of its flag.
fn push_operation(text: &mut String, ty: &'static str, op: Operation) -> Result<(), AllocError>
    ensures { OnOk result
        (string_bytes text.new ≡ string_bytes text.old ++ operation_methods ty.now op) }
{
    push_operation_method(text, ty, op)?;
    match op {
        Operation::Ask(predicate) => push_matching(text, ty, predicate),
        Operation::Compare(_) | Operation::Compute(_) | Operation::Bits(_) => Ok(()),
        Operation::Move(_) | Operation::Tally(_) | Operation::Negate(_) => Ok(()),
    }
}

// Appends the methods of operations.
fn push_operations(text: &mut String, ty: &'static str, ops: &[Operation]) -> Result<(), AllocError>
    ensures { OnOk result
        (string_bytes text.new
        ≡ string_bytes text.old ++ flat_map (operation_methods ty.now) ops.now) }
{
    for op in ops {
        push_operation(text, ty, *op)?;
    }
    Ok(())
}

/// Appends the methods of a type's operations.
pub fn push_type(alloc: Global, text: &mut String, ty: NumericType) -> Result<(), OutOfMemory>
    ensures { OnOk result
        (string_bytes text.new ≡ string_bytes text.old ++ type_methods ty) }
{
    let ops = operations(alloc, ty.signed)?;
    push_operations(text, ty.name(), ops.as_slice())?;
    Ok(())
}
