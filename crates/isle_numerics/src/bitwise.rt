//! What is done bit by bit.

ghost use Rattle.std.specs.Prelude.{◌≡◌};
ghost use Rattle.isle_numerics.specs.Meaning.{bitwise, number_of};

use crate::numbers::{opposite_pattern, pattern, reduced_unsigned};
use crate::operation::Bitwise;
use isle_core::IntType;

/// Returns what the operation gives of two arguments.
pub fn bitwise(ty: IntType, op: Bitwise, a: i128, b: i128) -> i128
    ensures { result ≡ bitwise ty op (number_of ty a) (number_of ty b) }
{
    let p = pattern(ty, a);
    let q = pattern(ty, b);
    match op {
        Bitwise::And => reduced_unsigned(ty, p & q),
        Bitwise::Or => reduced_unsigned(ty, p | q),
        Bitwise::Xor => reduced_unsigned(ty, p ^ q),
        Bitwise::Not => reduced_unsigned(ty, opposite_pattern(ty, a)),
    }
}
