//! How a sign is turned.

ghost use Rattle.std.specs.Prelude.{◌≡◌, neg_ℤ};
ghost use Rattle.isle_numerics.specs.Meaning.{negation, number_of, reduced};

use crate::arithmetic::{checked, expected};
use crate::eval::OpResult;
use crate::exact::opposite;
use crate::numbers::reduced;
use crate::operation::Negation;
use isle_core::IntType;

// An argument with its sign turned, wrapped.
fn wrapping_opposite(ty: IntType, a: i128) -> i128
    ensures { result ≡ reduced ty (neg_ℤ (number_of ty a)) }
{
    reduced(ty, a.wrapping_neg())
}

/// Returns what the operation gives of an argument.
pub fn negation(ty: IntType, op: Negation, a: i128) -> OpResult
    ensures { result ≡ negation ty op (number_of ty a) }
{
    match op {
        Negation::CheckedNeg => checked(opposite(ty, a)),
        Negation::WrappingNeg => OpResult::Number(wrapping_opposite(ty, a)),
        Negation::Neg => expected(opposite(ty, a)),
    }
}
