//! The list of a type's operations.

ghost use Rattle.std.specs.Prelude.{◌≡◌, ◌++◌, [], ◌∷◌, IfOk, OnOk, map};
ghost use Rattle.isle_numerics.specs.NumericTypes.{IsNumeric};
ghost use Rattle.isle_numerics.specs.Operations.{row};
ghost use Rattle.isle_numerics.specs.Table.{arguments, given, listed, operations, own_operations};
ghost use Rattle.isle_numerics.specs.Table.{ops_for};

use crate::numeric_type::NumericType;
use crate::operation::{
    Arithmetic, Bitwise, Comparison, Count, Gives, Negation, Operation, Predicate, Shift, Takes,
};
use isle_core::{List, OutOfMemory, Text};
use std::alloc::{AllocError, Global};

/// An operation of a type: its name without the type's, the type of what it gives, whether it may give nothing, the
/// names and types of its arguments, its Rust text, and whether extractors are made for it.
#[derive(Debug, Drop)]
pub struct NumericOp {
    pub name: Text,
    pub ret: Text,
    pub partial: bool,
    pub args: List<(Text, Text)>,
    pub body: Text,
    pub etors: bool,
}

/// The operations that each type has.
pub const SHARED: [Operation; 42] = [
    Operation::Compare(Comparison::Eq),
    Operation::Compare(Comparison::Ne),
    Operation::Compare(Comparison::Lt),
    Operation::Compare(Comparison::LtEq),
    Operation::Compare(Comparison::Gt),
    Operation::Compare(Comparison::GtEq),
    Operation::Compute(Arithmetic::CheckedAdd),
    Operation::Compute(Arithmetic::WrappingAdd),
    Operation::Compute(Arithmetic::Add),
    Operation::Compute(Arithmetic::CheckedSub),
    Operation::Compute(Arithmetic::WrappingSub),
    Operation::Compute(Arithmetic::Sub),
    Operation::Compute(Arithmetic::CheckedMul),
    Operation::Compute(Arithmetic::WrappingMul),
    Operation::Compute(Arithmetic::Mul),
    Operation::Compute(Arithmetic::CheckedDiv),
    Operation::Compute(Arithmetic::WrappingDiv),
    Operation::Compute(Arithmetic::Div),
    Operation::Compute(Arithmetic::CheckedRem),
    Operation::Compute(Arithmetic::Rem),
    Operation::Bits(Bitwise::And),
    Operation::Bits(Bitwise::Or),
    Operation::Bits(Bitwise::Xor),
    Operation::Bits(Bitwise::Not),
    Operation::Move(Shift::CheckedShl),
    Operation::Move(Shift::WrappingShl),
    Operation::Move(Shift::Shl),
    Operation::Move(Shift::CheckedShr),
    Operation::Move(Shift::WrappingShr),
    Operation::Move(Shift::Shr),
    Operation::Move(Shift::Rotl),
    Operation::Move(Shift::Rotr),
    Operation::Ask(Predicate::Zero),
    Operation::Ask(Predicate::NonZero),
    Operation::Ask(Predicate::Odd),
    Operation::Ask(Predicate::Even),
    Operation::Tally(Count::CheckedIlog2),
    Operation::Tally(Count::Ilog2),
    Operation::Tally(Count::TrailingZeros),
    Operation::Tally(Count::TrailingOnes),
    Operation::Tally(Count::LeadingZeros),
    Operation::Tally(Count::LeadingOnes),
];

/// The operations that only signed types have.
pub const NEGATIONS: [Operation; 3] = [
    Operation::Negate(Negation::CheckedNeg),
    Operation::Negate(Negation::WrappingNeg),
    Operation::Negate(Negation::Neg),
];

/// The operation that only unsigned types have.
pub const POWER_OF_TWO: [Operation; 1] = [Operation::Ask(Predicate::PowerOfTwo)];

/// Returns the name of the type that an operation gives, at the type of this name.
pub fn given(name: &'static str, gives: Gives) -> &'static str
    ensures { result.now ≡ given name.now gives }
{
    match gives {
        Gives::Same => name,
        Gives::Truth => "bool",
        Gives::Places => "u32",
    }
}

// Appends the name and type of an argument.
fn push_argument(
    alloc: Global,
    args: &mut Vec<(Text, Text)>,
    name: &str,
    ty: &str,
) -> Result<(), AllocError>
    ensures { OnOk result (args.new.items ≡ args.old.items ++ (name.now, ty.now) ∷ []) }
{
    args.push((Text::copied(alloc, name)?, Text::copied(alloc, ty)?))?;
    Ok(())
}

// The names and types of what an operation takes.
fn arguments(alloc: Global, name: &str, takes: Takes) -> Result<List<(Text, Text)>, AllocError>
    ensures { IfOk result (λ args. args ≡ arguments name.now takes) }
{
    let mut args = Vec::new(alloc);
    push_argument(alloc, &mut args, "a", name)?;
    match takes {
        Takes::One => {}
        Takes::Two => push_argument(alloc, &mut args, "b", name)?,
        Takes::Amount => push_argument(alloc, &mut args, "b", "u32")?,
    }
    Ok(List::new(args))
}

// An operation as it is listed at the type of this name.
fn listed(alloc: Global, name: &'static str, op: Operation) -> Result<NumericOp, AllocError>
    ensures { IfOk result (λ item. item ≡ listed name.now op) }
{
    Ok(NumericOp {
        name: Text::copied(alloc, op.name())?,
        ret: Text::copied(alloc, given(name, op.gives()))?,
        partial: op.is_partial(),
        args: arguments(alloc, name, op.takes())?,
        body: Text::copied(alloc, op.body())?,
        etors: op.is_predicate(),
    })
}

// Appends operations as they are listed at the type of this name.
fn push_listed(
    alloc: Global,
    items: &mut Vec<NumericOp>,
    name: &'static str,
    ops: &[Operation],
) -> Result<(), AllocError>
    ensures { OnOk result (items.new.items ≡ items.old.items ++ map (listed name.now) ops.now) }
{
    for op in ops {
        items.push(listed(alloc, name, *op)?)?;
    }
    Ok(())
}

/// Returns the operations of a type, in the order of the table: 45 if it is signed, and 43 if not. The type is one of
/// the ten that `all` gives. The only error is want of memory.
pub fn ops_for_type(alloc: Global, ty: NumericType) -> Result<Vec<NumericOp>, OutOfMemory>
    requires { IsNumeric ty }
    ensures { IfOk result (λ ops. ops.items ≡ ops_for ty) }
{
    let name = ty.name();
    let mut items = Vec::new(alloc);
    push_listed(alloc, &mut items, name, &SHARED)?;
    if ty.signed {
        push_listed(alloc, &mut items, name, &NEGATIONS)?;
    } else {
        push_listed(alloc, &mut items, name, &POWER_OF_TWO)?;
    }
    Ok(items)
}

// Appends operations.
fn push_all(items: &mut Vec<Operation>, ops: &[Operation]) -> Result<(), AllocError>
    ensures { OnOk result (items.new.items ≡ items.old.items ++ ops.now) }
{
    for op in ops {
        items.push(*op)?;
    }
    Ok(())
}

/// Returns the operations of a type of this sign, in the order of the table. The only error is want of memory.
pub fn operations(alloc: Global, signed: bool) -> Result<Vec<Operation>, OutOfMemory>
    ensures { IfOk result (λ ops. ops.items ≡ operations signed) }
{
    let mut items = Vec::new(alloc);
    push_all(&mut items, &SHARED)?;
    if signed {
        push_all(&mut items, &NEGATIONS)?;
    } else {
        push_all(&mut items, &POWER_OF_TWO)?;
    }
    Ok(items)
}
