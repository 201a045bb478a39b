//! What an operation gives.

ghost use Rattle.std.specs.Prelude.{◌≡◌};
ghost use Rattle.isle_numerics.specs.NumericTypes.{IsNumeric};
ghost use Rattle.isle_numerics.specs.Meaning.{meaning, meaning_at, named};
ghost use Rattle.isle_numerics.specs.Table.{operations};

use crate::arithmetic::arithmetic;
use crate::bitwise::bitwise;
use crate::comparison::comparison;
use crate::count::count;
use crate::negation::negation;
use crate::numeric_type::NumericType;
use crate::operation::Operation;
use crate::predicate::predicate;
use crate::shift::shift;
use crate::table::{NEGATIONS, POWER_OF_TWO, SHARED};
use isle_core::IntType;
use isle_spelling::is_same;

/// What an operation gives: a number, a truth, nothing, or a stop of the program.
#[derive(Clone, Copy, Debug, PartialEq, Eq)]
pub enum OpResult {
    Number(i128),
    Flag(bool),
    Nothing,
    Panic,
}

// The first of the operations that has the name.
fn first_named(name: &str, ops: &[Operation]) -> Option<Operation>
    ensures { result ≡ named name.now ops.now }
{
    for op in ops {
        if is_same(op.name(), name) {
            return Some(*op);
        }
    }
    None
}

// The operation of this name of a type of this sign.
fn find(signed: bool, name: &str) -> Option<Operation>
    ensures { result ≡ named name.now (operations signed) }
{
    match first_named(name, &SHARED) {
        Some(op) => Some(op),
        None if signed => first_named(name, &NEGATIONS),
        None => first_named(name, &POWER_OF_TWO),
    }
}

// What an operation gives of two arguments.
fn applied(ty: IntType, op: Operation, a: i128, b: i128) -> OpResult
    ensures { result ≡ meaning_at ty op a b }
{
    match op {
        Operation::Compare(op) => OpResult::Flag(comparison(ty, op, a, b)),
        Operation::Compute(op) => arithmetic(ty, op, a, b),
        Operation::Bits(op) => OpResult::Number(bitwise(ty, op, a, b)),
        Operation::Move(op) => shift(ty, op, a, b),
        Operation::Ask(op) => OpResult::Flag(predicate(ty, op, a)),
        Operation::Tally(op) => count(ty, op, a),
        Operation::Negate(op) => negation(ty, op, a),
    }
}

/// Returns what the type's operation of this name gives of two arguments, and none if the type has no such operation.
/// Arguments are numbers of their types, those of `u128` as 128 signed bits; a shift's second argument is its amount,
/// and an operation of one argument takes no account of the second. The type is one of the ten that `all` gives.
pub fn eval_op(ty: NumericType, op: &str, a: i128, b: i128) -> Option<OpResult>
    requires { IsNumeric ty }
    ensures { result ≡ meaning ty op.now a b }
{
    match find(ty.signed, op) {
        Some(op) => Some(applied(ty.int_type(), op, a, b)),
        None => None,
    }
}
