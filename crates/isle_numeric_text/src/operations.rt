//! The definitions of a type's operations.

ghost use Rattle.std.specs.Prelude.{◌≡◌, ◌++◌, OnOk, IfOk, ℕ, map, string_bytes};
ghost use Rattle.std.specs.Prelude.{List as ListOf};
ghost use Rattle.std.specs.List.{flat_map};
ghost use Rattle.isle_writing.specs.Text.{def_texts};
ghost use Rattle.isle_numerics.specs.Definitions.{name_of, operation_defs, type_defs};
ghost use Rattle.isle_numerics.specs.Table.{arguments};
ghost use Rattle.isle_numerics.specs.declared.operation.Operation.{Operation as Op};

use crate::definition::{prefixed, push_constructed};
use crate::extractors::push_extractors;
use isle_core::{List, Name, OutOfMemory};
use isle_numerics::{NumericType, Operation, Takes, given, operations};
use std::alloc::{AllocError, Global};

// The types of what an operation takes.
fn argument_types<'t>(
    alloc: Global,
    ty: &'t str,
    takes: Takes,
) -> Result<List<Name<'t>>, AllocError>
    ensures { IfOk result (λ names. names ≡ map (λ (arg : ListOf ℕ × ListOf ℕ). arg.1) (arguments ty.now takes)) }
{
    let mut names = Vec::new(alloc);
    names.push(Name::new(ty))?;
    match takes {
        Takes::One => {}
        Takes::Two => names.push(Name::new(ty))?,
        Takes::Amount => names.push(Name::new("u32"))?,
    }
    Ok(List::new(names))
}

// Appends the definitions of an operation, at the type of this name.
fn push_operation(
    alloc: Global,
    text: &mut String,
    ty: &'static str,
    op: Operation,
) -> Result<(), AllocError>
    ensures { OnOk result
        (string_bytes text.new ≡ string_bytes text.old ++ def_texts (operation_defs ty.now op)) }
{
    let term = prefixed(alloc, ty, op.name())?;
    let args = argument_types(alloc, ty, op.takes())?;
    push_constructed(
        text,
        term.as_str(),
        op.is_partial(),
        args,
        given(ty, op.gives()),
    )?;
    match op {
        Operation::Ask(predicate) => push_extractors(alloc, text, ty, predicate.base()),
        _ => Ok(()),
    }
}

// Appends the definitions of operations, at the type of this name.
fn push_operations(
    alloc: Global,
    text: &mut String,
    ty: &'static str,
    ops: &[Operation],
) -> Result<(), AllocError>
    ensures { OnOk result
        (string_bytes text.new
        ≡ string_bytes text.old ++ flat_map (λ (op : Op). def_texts (operation_defs ty.now op)) ops.now) }
{
    for op in ops {
        push_operation(alloc, text, ty, *op)?;
    }
    Ok(())
}

/// Appends the definitions of a type's operations.
#[tactic(auto, using(crate::proofs::TextLaws::type_texts))]
pub fn push_type(alloc: Global, text: &mut String, ty: NumericType) -> Result<(), OutOfMemory>
    ensures { OnOk result
        (string_bytes text.new ≡ string_bytes text.old ++ def_texts (type_defs ty)) }
{
    let ops = operations(alloc, ty.signed)?;
    push_operations(alloc, text, ty.name(), ops.as_slice())?;
    Ok(())
}
