//! How bits are moved by an amount.

ghost use Rattle.std.specs.Prelude.{◌≡◌, ◌<◌, ◌%◌, unsigned_abs};
ghost use mir.Val.{bits};
ghost use Rattle.isle_core.specs.Int.{width};
ghost use Rattle.isle_numerics.specs.Meaning.{in_width, number_of, rotated_left, shift};
ghost use Rattle.isle_numerics.specs.Meaning.{shifted_left, shifted_right};

use crate::arithmetic::{checked, expected};
use crate::eval::OpResult;
use crate::numbers::{pattern, reduced, reduced_unsigned};
use crate::operation::Shift;
use isle_core::IntType;

// An argument times 2 to the power of the amount, wrapped.
#[tactic(auto, using(crate::proofs::ShiftLaws::left_reduced))]
fn shifted_left(ty: IntType, a: i128, amount: u32) -> i128
    requires { amount < bits (width ty) }
    ensures { result ≡ shifted_left ty (number_of ty a) amount }
{
    reduced(ty, a << amount)
}

// An argument divided by 2 to the power of the amount, rounded down.
#[tactic(auto, using(crate::proofs::ShiftLaws::unsigned_right))]
fn shifted_right(ty: IntType, a: i128, amount: u32) -> i128
    requires { amount < bits (width ty) }
    ensures { result ≡ shifted_right (number_of ty a) amount }
{
    if ty.is_signed() {
        a >> amount
    } else {
        (a.cast_unsigned() >> amount).cast_signed()
    }
}

// The bits of an argument turned towards the high end.
#[tactic(auto, using(crate::proofs::ShiftLaws::turned_reduced))]
fn rotated_left(ty: IntType, a: i128, amount: u32) -> i128
    requires { amount < bits (width ty) }
    ensures { result ≡ rotated_left ty (number_of ty a) amount }
{
    let p = pattern(ty, a);
    if amount == 0 {
        return reduced_unsigned(ty, p);
    }
    let high = p >> (ty.bits() - amount);
    reduced_unsigned(ty, (p << amount).wrapping_add(high))
}

// What the operation gives of an amount below the width.
fn within(ty: IntType, op: Shift, a: i128, amount: u32) -> OpResult
    requires { amount < bits (width ty) }
    ensures { result ≡ shift ty op (number_of ty a) amount }
{
    match op {
        Shift::CheckedShl => OpResult::Number(shifted_left(ty, a, amount)),
        Shift::WrappingShl => OpResult::Number(shifted_left(ty, a, amount)),
        Shift::Shl => OpResult::Number(shifted_left(ty, a, amount)),
        Shift::CheckedShr => OpResult::Number(shifted_right(ty, a, amount)),
        Shift::WrappingShr => OpResult::Number(shifted_right(ty, a, amount)),
        Shift::Shr => OpResult::Number(shifted_right(ty, a, amount)),
        Shift::Rotl => OpResult::Number(rotated_left(ty, a, amount)),
        Shift::Rotr => {
            let width = ty.bits();
            OpResult::Number(rotated_left(ty, a, (width - amount) % width))
        }
    }
}

// How much of an amount is left modulo the width.
fn left_over(ty: IntType, amount: u128) -> u32
    ensures below { result < bits (width ty) }
    ensures value { result ≡ amount % bits (width ty) }
{
    (amount % (ty.bits() as u128)) as u32
}

/// Returns what the operation gives of an argument and an amount.
pub fn shift(ty: IntType, op: Shift, a: i128, b: i128) -> OpResult
    ensures { result ≡ shift ty op (number_of ty a) (unsigned_abs b) }
{
    let amount = b.unsigned_abs();
    let rest = left_over(ty, amount);
    if amount < ty.bits() as u128 {
        return within(ty, op, a, rest);
    }
    match op {
        Shift::CheckedShl => OpResult::Nothing,
        Shift::CheckedShr => OpResult::Nothing,
        Shift::Shl => OpResult::Panic,
        Shift::Shr => OpResult::Panic,
        Shift::WrappingShl => within(ty, op, a, rest),
        Shift::WrappingShr => within(ty, op, a, rest),
        Shift::Rotl => within(ty, op, a, rest),
        Shift::Rotr => within(ty, op, a, rest),
    }
}
