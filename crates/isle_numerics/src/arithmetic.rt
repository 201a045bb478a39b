//! What is computed of two numbers.

ghost use Rattle.std.specs.Prelude.{◌≡◌, pos, ◌+ℤ◌, ◌-ℤ◌, ◌*ℤ◌, true, false};
ghost use Rattle.isle_core.specs.Int.{is_signed};
ghost use Rattle.isle_numerics.specs.Meaning.{arithmetic, checked, expected, number_of, reduced};
ghost use Rattle.isle_numerics.specs.Meaning.{remainder, wrapped_quotient};

use crate::eval::OpResult;
use crate::exact::{difference, product, quotient, sum};
use crate::numbers::{reduced, reduced_unsigned};
use crate::operation::Arithmetic;
use isle_core::IntType;

/// Returns the number, or nothing.
pub fn checked(n: Option<i128>) -> OpResult
    ensures { result ≡ checked n }
{
    match n {
        Some(n) => OpResult::Number(n),
        None => OpResult::Nothing,
    }
}

/// Returns the number, or a stop of the program.
pub fn expected(n: Option<i128>) -> OpResult
    ensures { result ≡ expected n }
{
    match n {
        Some(n) => OpResult::Number(n),
        None => OpResult::Panic,
    }
}

#[tactic(auto, using(crate::proofs::WrapLaws::sum_reduced))]
fn wrapping_sum(ty: IntType, a: i128, b: i128) -> i128
    ensures { result ≡ reduced ty (number_of ty a +ℤ number_of ty b) }
{
    reduced(ty, a.wrapping_add(b))
}

#[tactic(auto, using(crate::proofs::WrapLaws::difference_reduced))]
fn wrapping_difference(ty: IntType, a: i128, b: i128) -> i128
    ensures { result ≡ reduced ty (number_of ty a -ℤ number_of ty b) }
{
    reduced(ty, a.wrapping_sub(b))
}

#[tactic(auto, using(crate::proofs::WrapLaws::product_reduced))]
fn wrapping_product(ty: IntType, a: i128, b: i128) -> i128
    ensures { result ≡ reduced ty (number_of ty a *ℤ number_of ty b) }
{
    reduced(ty, a.wrapping_mul(b))
}

fn signed_wrapping_quotient(ty: IntType, a: i128, b: i128) -> OpResult
    requires { is_signed ty ≡ true }
    ensures { result ≡ wrapped_quotient ty a b }
{
    if b == 0 {
        return OpResult::Panic;
    }
    OpResult::Number(reduced(ty, a.wrapping_div(b)))
}

fn unsigned_wrapping_quotient(ty: IntType, x: u128, y: u128) -> OpResult
    requires { is_signed ty ≡ false }
    ensures { result ≡ wrapped_quotient ty (pos x) (pos y) }
{
    if y == 0 {
        return OpResult::Panic;
    }
    OpResult::Number(reduced_unsigned(ty, x / y))
}

fn wrapping_quotient(ty: IntType, a: i128, b: i128) -> OpResult
    ensures { result ≡ wrapped_quotient ty (number_of ty a) (number_of ty b) }
{
    if ty.is_signed() {
        signed_wrapping_quotient(ty, a, b)
    } else {
        unsigned_wrapping_quotient(ty, a.cast_unsigned(), b.cast_unsigned())
    }
}

fn signed_remainder(ty: IntType, a: i128, b: i128) -> Option<i128>
    requires { is_signed ty ≡ true }
    ensures { result ≡ remainder ty a b }
{
    if b == 0 {
        return None;
    }
    match quotient(ty, a, b) {
        Some(_) => Some(a.wrapping_rem(b)),
        None => None,
    }
}

fn unsigned_remainder(ty: IntType, a: i128, b: i128) -> Option<i128>
    requires { is_signed ty ≡ false }
    ensures { result ≡ remainder ty (number_of ty a) (number_of ty b) }
{
    if b == 0 {
        return None;
    }
    match quotient(ty, a, b) {
        Some(_) => Some((a.cast_unsigned() % b.cast_unsigned()).cast_signed()),
        None => None,
    }
}

fn remainder(ty: IntType, a: i128, b: i128) -> Option<i128>
    ensures { result ≡ remainder ty (number_of ty a) (number_of ty b) }
{
    if ty.is_signed() {
        signed_remainder(ty, a, b)
    } else {
        unsigned_remainder(ty, a, b)
    }
}

/// Returns what the operation gives of two arguments.
pub fn arithmetic(ty: IntType, op: Arithmetic, a: i128, b: i128) -> OpResult
    ensures { result ≡ arithmetic ty op (number_of ty a) (number_of ty b) }
{
    match op {
        Arithmetic::CheckedAdd => checked(sum(ty, a, b)),
        Arithmetic::WrappingAdd => OpResult::Number(wrapping_sum(ty, a, b)),
        Arithmetic::Add => expected(sum(ty, a, b)),
        Arithmetic::CheckedSub => checked(difference(ty, a, b)),
        Arithmetic::WrappingSub => OpResult::Number(wrapping_difference(ty, a, b)),
        Arithmetic::Sub => expected(difference(ty, a, b)),
        Arithmetic::CheckedMul => checked(product(ty, a, b)),
        Arithmetic::WrappingMul => OpResult::Number(wrapping_product(ty, a, b)),
        Arithmetic::Mul => expected(product(ty, a, b)),
        Arithmetic::CheckedDiv => checked(quotient(ty, a, b)),
        Arithmetic::WrappingDiv => wrapping_quotient(ty, a, b),
        Arithmetic::Div => expected(quotient(ty, a, b)),
        Arithmetic::CheckedRem => checked(remainder(ty, a, b)),
        Arithmetic::Rem => expected(remainder(ty, a, b)),
    }
}
