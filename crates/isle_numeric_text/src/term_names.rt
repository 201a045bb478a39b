//! The names of the terms of the numeric prelude.

ghost use Rattle.std.specs.Prelude.{◌≡◌, ◌++◌, [], ◌∷◌, OnOk, IfOk, map, string_bytes};
ghost use Rattle.std.specs.List.{flat_map};
ghost use Rattle.isle_numerics.specs.declared.numeric_type.NumericType.{NumericType as Numeric};
ghost use Rattle.isle_numerics.specs.declared.operation.Operation.{Operation as Op};
ghost use Rattle.isle_numerics.specs.Definitions.{conversion_name, extractors, numeric_terms};
ghost use Rattle.isle_numerics.specs.Definitions.{operation_defs, pair_defs, type_defs};
ghost use Rattle.isle_numeric_text.specs.Among.{defs_among, pairs_among, terms_of};

use crate::conversions::conversion_name;
use crate::definition::{prefixed, prefixed_twice};
use isle_core::{List, OutOfMemory, Text};
use isle_numerics::{Conversion, NumericType, Operation, conversions, is_other, operations};
use std::alloc::{AllocError, Global};

// Appends a name.
fn push_name(names: &mut Vec<Text>, name: String) -> Result<(), AllocError>
    ensures { OnOk result (names.new.items ≡ names.old.items ++ string_bytes name ∷ []) }
{
    names.push(Text::new(name))?;
    Ok(())
}

// Appends the terms of a predicate's extractors, at the type of this name.
fn push_extractors(
    alloc: Global,
    names: &mut Vec<Text>,
    ty: &str,
    base: &str,
) -> Result<(), AllocError>
    ensures { OnOk result
        (names.new.items ≡ names.old.items ++ terms_of (extractors ty.now base.now)) }
{
    push_name(names, prefixed_twice(alloc, ty, "matches_", base)?)?;
    push_name(names, prefixed_twice(alloc, ty, "extract_", base)?)?;
    push_name(names, prefixed_twice(alloc, ty, "when_", base)?)?;
    push_name(names, prefixed_twice(alloc, ty, "when_not_", base)?)
}

// Appends the terms of an operation, at the type of this name.
fn push_operation(
    alloc: Global,
    names: &mut Vec<Text>,
    ty: &str,
    op: Operation,
) -> Result<(), AllocError>
    ensures { OnOk result
        (names.new.items ≡ names.old.items ++ terms_of (operation_defs ty.now op)) }
{
    push_name(names, prefixed(alloc, ty, op.name())?)?;
    match op {
        Operation::Ask(predicate) => push_extractors(alloc, names, ty, predicate.base()),
        _ => Ok(()),
    }
}

// Appends the terms of operations, at the type of this name.
fn push_operations(
    alloc: Global,
    names: &mut Vec<Text>,
    ty: &str,
    ops: &[Operation],
) -> Result<(), AllocError>
    ensures { OnOk result
        (names.new.items
        ≡ names.old.items ++ flat_map (λ (op : Op). terms_of (operation_defs ty.now op)) ops.now) }
{
    for op in ops {
        push_operation(alloc, names, ty, *op)?;
    }
    Ok(())
}

// Appends the terms of a type's operations.
#[tactic(auto, using(crate::proofs::TermLaws::type_terms))]
fn push_type(alloc: Global, names: &mut Vec<Text>, ty: NumericType) -> Result<(), OutOfMemory>
    ensures { OnOk result (names.new.items ≡ names.old.items ++ terms_of (type_defs ty)) }
{
    let ops = operations(alloc, ty.signed)?;
    push_operations(alloc, names, ty.name(), ops.as_slice())?;
    Ok(())
}

// Appends the terms of conversions between the types of these names.
fn push_conversions(
    alloc: Global,
    names: &mut Vec<Text>,
    from: &str,
    to: &str,
    all: &[Conversion],
) -> Result<(), AllocError>
    ensures { OnOk result
        (names.new.items ≡ names.old.items ++ map (conversion_name from.now to.now) all.now) }
{
    for c in all {
        push_name(names, conversion_name(alloc, from, to, *c)?)?;
    }
    Ok(())
}

// Appends the terms of a pair of types.
#[tactic(auto, using(crate::proofs::TermLaws::pair_terms))]
fn push_pair(
    alloc: Global,
    names: &mut Vec<Text>,
    from: NumericType,
    to: NumericType,
) -> Result<(), OutOfMemory>
    ensures { OnOk result (names.new.items ≡ names.old.items ++ terms_of (pair_defs from to)) }
{
    let all = conversions(alloc, from, to)?;
    push_conversions(alloc, names, from.name(), to.name(), all.as_slice())?;
    push_name(
        names,
        prefixed_twice(alloc, to.name(), "from_", from.name())?,
    )?;
    Ok(())
}

// Appends the terms of the pairs whose first type is this one.
fn push_pairs_from(
    alloc: Global,
    names: &mut Vec<Text>,
    from: NumericType,
    types: &[NumericType],
) -> Result<(), OutOfMemory>
    ensures { OnOk result
        (names.new.items ≡ names.old.items ++ terms_of (pairs_among types.now from)) }
{
    for to in types {
        if is_other(from, *to) {
            push_pair(alloc, names, from, *to)?;
        }
    }
    Ok(())
}

// Appends the terms of the types' operations.
fn push_types(
    alloc: Global,
    names: &mut Vec<Text>,
    types: &[NumericType],
) -> Result<(), OutOfMemory>
    ensures { OnOk result
        (names.new.items
        ≡ names.old.items ++ flat_map (λ (ty : Numeric). terms_of (type_defs ty)) types.now) }
{
    for ty in types {
        push_type(alloc, names, *ty)?;
    }
    Ok(())
}

// Appends the terms of pairs, first type by first type.
fn push_pairs(
    alloc: Global,
    names: &mut Vec<Text>,
    firsts: &[NumericType],
    types: &[NumericType],
) -> Result<(), OutOfMemory>
    ensures { OnOk result
        (names.new.items
        ≡ names.old.items
        ++ flat_map (λ (from : Numeric). terms_of (pairs_among types.now from)) firsts.now) }
{
    for from in firsts {
        push_pairs_from(alloc, names, *from, types)?;
    }
    Ok(())
}

// The terms of the definitions among these types.
fn terms_among(alloc: Global, types: &[NumericType]) -> Result<List<Text>, OutOfMemory>
    ensures { IfOk result (λ names. names ≡ terms_of (defs_among types.now)) }
{
    let mut names = Vec::new(alloc);
    push_types(alloc, &mut names, types)?;
    push_pairs(alloc, &mut names, types, types)?;
    Ok(List::new(names))
}

/// Returns the names of all terms of the numeric prelude, in the order of their declarations. The only error is want of
/// memory.
#[tactic(auto, using(crate::proofs::TermLaws::numeric_among_terms))]
pub fn terms(alloc: Global) -> Result<List<Text>, OutOfMemory>
    ensures { IfOk result (λ names. names ≡ numeric_terms) }
{
    let types = NumericType::all(alloc)?;
    terms_among(alloc, types.as_slice())
}
