//! How two numbers compare.

ghost use Rattle.std.specs.Prelude.{◌≡◌, pos};
ghost use Rattle.isle_numerics.specs.Meaning.{comparison, number_of};

use crate::operation::Comparison;
use isle_core::IntType;

fn signed_comparison(op: Comparison, a: i128, b: i128) -> bool
    ensures { result ≡ comparison op a b }
{
    match op {
        Comparison::Eq => a <= b && b <= a,
        Comparison::Ne => !(a <= b && b <= a),
        Comparison::Lt => a < b,
        Comparison::LtEq => a <= b,
        Comparison::Gt => b < a,
        Comparison::GtEq => b <= a,
    }
}

fn unsigned_comparison(op: Comparison, x: u128, y: u128) -> bool
    ensures { result ≡ comparison op (pos x) (pos y) }
{
    match op {
        Comparison::Eq => x <= y && y <= x,
        Comparison::Ne => !(x <= y && y <= x),
        Comparison::Lt => x < y,
        Comparison::LtEq => x <= y,
        Comparison::Gt => y < x,
        Comparison::GtEq => y <= x,
    }
}

/// Tells how two arguments compare.
pub fn comparison(ty: IntType, op: Comparison, a: i128, b: i128) -> bool
    ensures { result ≡ comparison op (number_of ty a) (number_of ty b) }
{
    if ty.is_signed() {
        signed_comparison(op, a, b)
    } else {
        unsigned_comparison(op, a.cast_unsigned(), b.cast_unsigned())
    }
}
