//! What is counted of one number's bits.

ghost use Rattle.std.specs.Prelude.{◌≡◌, ◌<◌, ◌^◌, pos, int_lt};
ghost use lib.Count.{count_leading_zeros, count_trailing_zeros};
ghost use mir.Val.{bits};
ghost use Rattle.isle_core.specs.Int.{width};
ghost use Rattle.isle_numerics.specs.Meaning.{count, logarithm, number_of};

use crate::arithmetic::{checked, expected};
use crate::eval::OpResult;
use crate::numbers::{magnitude, opposite_pattern, pattern};
use crate::operation::Count;
use isle_core::IntType;

/// Tells whether an argument stands for a number above 0.
pub fn is_positive(ty: IntType, a: i128) -> bool
    ensures { result ≡ int_lt (pos 0) (number_of ty a) }
{
    if ty.is_signed() {
        0 < a
    } else {
        0 < a.cast_unsigned()
    }
}

// The greatest k with 2 to the power k not above the argument.
#[tactic(auto, using(crate::proofs::CountLaws::logarithm_is))]
fn logarithm(ty: IntType, a: i128) -> Option<i128>
    ensures { result ≡ logarithm (number_of ty a) }
{
    if !is_positive(ty, a) {
        return None;
    }
    Some(magnitude(ty, a).ilog2() as i128)
}

// How many of the places below the lowest bit that is set.
fn trailing(ty: IntType, n: u128) -> i128
    ensures { result ≡ pos (count_trailing_zeros (bits (width ty)) n) }
{
    n.trailing_zeros().min(ty.bits()) as i128
}

// How many of the places above the highest bit that is set.
fn leading(ty: IntType, n: u128) -> i128
    requires { n < 2 ^ bits (width ty) }
    ensures { result ≡ pos (count_leading_zeros (bits (width ty)) n) }
{
    (n.leading_zeros() - (128 - ty.bits())) as i128
}

/// Returns what is counted of an argument's bits.
pub fn count(ty: IntType, op: Count, a: i128) -> OpResult
    ensures { result ≡ count ty op (number_of ty a) }
{
    match op {
        Count::CheckedIlog2 => checked(logarithm(ty, a)),
        Count::Ilog2 => expected(logarithm(ty, a)),
        Count::TrailingZeros => OpResult::Number(trailing(ty, pattern(ty, a))),
        Count::TrailingOnes => OpResult::Number(trailing(ty, opposite_pattern(ty, a))),
        Count::LeadingZeros => OpResult::Number(leading(ty, pattern(ty, a))),
        Count::LeadingOnes => OpResult::Number(leading(ty, opposite_pattern(ty, a))),
    }
}
