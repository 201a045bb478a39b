//! Sums, differences, products and quotients that are of the type, or none.

ghost use Rattle.std.specs.Prelude.{◌≡◌, pos, neg_ℤ, ◌+ℤ◌, ◌-ℤ◌, ◌*ℤ◌, int_div, true, false};
ghost use Rattle.isle_core.specs.Int.{is_signed};
ghost use Rattle.isle_numerics.specs.Meaning.{exact, is_value, number_of, quotient};

use crate::numbers::{high_bit, low_bits};
use isle_core::IntType;

// Whether a number is of the signed type.
fn is_signed_value(ty: IntType, n: i128) -> bool
    requires { is_signed ty ≡ true }
    ensures { result ≡ is_value ty n }
{
    let above = if n < 0 { !n } else { n };
    above.cast_unsigned() < high_bit(ty)
}

// A number, if it is of the signed type.
fn signed_exact(ty: IntType, n: i128) -> Option<i128>
    requires { is_signed ty ≡ true }
    ensures { result ≡ exact ty n }
{
    if is_signed_value(ty, n) {
        Some(n)
    } else {
        None
    }
}

// A number, if it is of the unsigned type.
#[tactic(auto, using(crate::proofs::ExactLaws::unsigned_some))]
fn unsigned_exact(ty: IntType, n: u128) -> Option<i128>
    requires { is_signed ty ≡ false }
    ensures { result ≡ exact ty (pos n) }
{
    if low_bits(ty, n) == n {
        Some(n.cast_signed())
    } else {
        None
    }
}

fn signed_sum(ty: IntType, a: i128, b: i128) -> Option<i128>
    requires { is_signed ty ≡ true }
    ensures { result ≡ exact ty (a +ℤ b) }
{
    match a.checked_add(b) {
        Some(n) => signed_exact(ty, n),
        None => None,
    }
}

fn unsigned_sum(ty: IntType, x: u128, y: u128) -> Option<i128>
    requires { is_signed ty ≡ false }
    ensures { result ≡ exact ty (pos x +ℤ pos y) }
{
    match x.checked_add(y) {
        Some(n) => unsigned_exact(ty, n),
        None => None,
    }
}

/// Returns the sum of two arguments, if it is of the type.
pub fn sum(ty: IntType, a: i128, b: i128) -> Option<i128>
    ensures { result ≡ exact ty (number_of ty a +ℤ number_of ty b) }
{
    if ty.is_signed() {
        signed_sum(ty, a, b)
    } else {
        unsigned_sum(ty, a.cast_unsigned(), b.cast_unsigned())
    }
}

fn signed_difference(ty: IntType, a: i128, b: i128) -> Option<i128>
    requires { is_signed ty ≡ true }
    ensures { result ≡ exact ty (a -ℤ b) }
{
    match a.checked_sub(b) {
        Some(n) => signed_exact(ty, n),
        None => None,
    }
}

fn unsigned_difference(ty: IntType, x: u128, y: u128) -> Option<i128>
    requires { is_signed ty ≡ false }
    ensures { result ≡ exact ty (pos x -ℤ pos y) }
{
    match x.checked_sub(y) {
        Some(n) => unsigned_exact(ty, n),
        None => None,
    }
}

/// Returns the difference of two arguments, if it is of the type.
pub fn difference(ty: IntType, a: i128, b: i128) -> Option<i128>
    ensures { result ≡ exact ty (number_of ty a -ℤ number_of ty b) }
{
    if ty.is_signed() {
        signed_difference(ty, a, b)
    } else {
        unsigned_difference(ty, a.cast_unsigned(), b.cast_unsigned())
    }
}

fn signed_product(ty: IntType, a: i128, b: i128) -> Option<i128>
    requires { is_signed ty ≡ true }
    ensures { result ≡ exact ty (a *ℤ b) }
{
    match a.checked_mul(b) {
        Some(n) => signed_exact(ty, n),
        None => None,
    }
}

fn unsigned_product(ty: IntType, x: u128, y: u128) -> Option<i128>
    requires { is_signed ty ≡ false }
    ensures { result ≡ exact ty (pos x *ℤ pos y) }
{
    match x.checked_mul(y) {
        Some(n) => unsigned_exact(ty, n),
        None => None,
    }
}

/// Returns the product of two arguments, if it is of the type.
pub fn product(ty: IntType, a: i128, b: i128) -> Option<i128>
    ensures { result ≡ exact ty (number_of ty a *ℤ number_of ty b) }
{
    if ty.is_signed() {
        signed_product(ty, a, b)
    } else {
        unsigned_product(ty, a.cast_unsigned(), b.cast_unsigned())
    }
}

fn signed_quotient(ty: IntType, a: i128, b: i128) -> Option<i128>
    requires { is_signed ty ≡ true }
    ensures { result ≡ quotient ty a b }
{
    if b == 0 {
        return None;
    }
    match a.checked_div(b) {
        Some(n) => signed_exact(ty, n),
        None => None,
    }
}

fn unsigned_quotient(ty: IntType, x: u128, y: u128) -> Option<i128>
    requires { is_signed ty ≡ false }
    ensures { result ≡ quotient ty (pos x) (pos y) }
{
    if y == 0 {
        return None;
    }
    unsigned_exact(ty, x / y)
}

/// Returns the quotient of two arguments, rounded toward zero, if the divisor isn't 0 and the quotient is of the type.
pub fn quotient(ty: IntType, a: i128, b: i128) -> Option<i128>
    ensures { result ≡ quotient ty (number_of ty a) (number_of ty b) }
{
    if ty.is_signed() {
        signed_quotient(ty, a, b)
    } else {
        unsigned_quotient(ty, a.cast_unsigned(), b.cast_unsigned())
    }
}

fn signed_opposite(ty: IntType, a: i128) -> Option<i128>
    requires { is_signed ty ≡ true }
    ensures { result ≡ exact ty (neg_ℤ a) }
{
    match a.checked_neg() {
        Some(n) => signed_exact(ty, n),
        None => None,
    }
}

fn unsigned_opposite(ty: IntType, x: u128) -> Option<i128>
    requires { is_signed ty ≡ false }
    ensures { result ≡ exact ty (neg_ℤ (pos x)) }
{
    if x == 0 { unsigned_exact(ty, x) } else { None }
}

/// Returns an argument with its sign turned, if that is of the type.
pub fn opposite(ty: IntType, a: i128) -> Option<i128>
    ensures { result ≡ exact ty (neg_ℤ (number_of ty a)) }
{
    if ty.is_signed() {
        signed_opposite(ty, a)
    } else {
        unsigned_opposite(ty, a.cast_unsigned())
    }
}
