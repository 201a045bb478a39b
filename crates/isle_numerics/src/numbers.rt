//! Numbers of a type: their bits, and the 128 signed bits that carry them.

ghost use Rattle.std.specs.Prelude.{◌≡◌, ◌<◌, ◌^◌, ◌%◌, pos, unsigned_abs};
ghost use mir.Val.{bits, hbits};
ghost use Rattle.isle_core.specs.Int.{width};
ghost use Rattle.isle_spelling.specs.Literal.{of_bits};
ghost use Rattle.isle_numerics.specs.Meaning.{carried, number_of, opposite_pattern, pattern};
ghost use Rattle.isle_numerics.specs.Meaning.{reduced};

use isle_core::IntType;

/// Returns as many of the low bits as the type has.
pub fn low_bits(ty: IntType, n: u128) -> u128
    ensures { result ≡ n % 2 ^ bits (width ty) }
{
    if ty.bits() == 128 {
        return n;
    }
    n % (1 << ty.bits())
}

/// Returns the type's highest bit, from which on a signed number lies below 0.
pub fn high_bit(ty: IntType) -> u128
    ensures { result ≡ 2 ^ hbits (width ty) }
{
    1 << (ty.bits() - 1)
}

/// Returns the number that an argument stands for, without its sign.
pub fn magnitude(ty: IntType, a: i128) -> u128
    ensures { result ≡ unsigned_abs (number_of ty a) }
{
    if ty.is_signed() {
        a.unsigned_abs()
    } else {
        a.cast_unsigned()
    }
}

/// Returns the bits of an argument in the type's width.
pub fn pattern(ty: IntType, a: i128) -> u128
    ensures { result ≡ pattern ty (number_of ty a) }
{
    low_bits(ty, a.cast_unsigned())
}

/// Returns the bits of an argument in the type's width, 0 and 1 exchanged.
pub fn opposite_pattern(ty: IntType, a: i128) -> u128
    ensures value { result ≡ opposite_pattern ty (number_of ty a) }
    ensures bound { result < 2 ^ bits (width ty) }
{
    low_bits(ty, u128::MAX) - pattern(ty, a)
}

/// Returns the number of the type that has these bits, carried.
#[tactic(auto, using(crate::proofs::WrapLaws::unsigned_carried))]
pub fn with_pattern(ty: IntType, n: u128) -> i128
    requires { n < 2 ^ bits (width ty) }
    ensures { result ≡ carried (of_bits ty n) }
{
    if !ty.is_signed() {
        return n.cast_signed();
    }
    let half = high_bit(ty);
    if n < half {
        return n.cast_signed();
    }
    !(half - 1 - (n - half)).cast_signed()
}

/// Returns the number of the type that a number wraps to, carried.
#[tactic(auto, using(crate::proofs::WrapLaws::low_reduced))]
pub fn reduced(ty: IntType, z: i128) -> i128
    ensures { result ≡ reduced ty z }
{
    with_pattern(ty, low_bits(ty, z.cast_unsigned()))
}

/// Returns the number of the type that a number without a sign wraps to, carried.
#[tactic(auto, using(crate::proofs::WrapLaws::unsigned_reduced))]
pub fn reduced_unsigned(ty: IntType, n: u128) -> i128
    ensures { result ≡ reduced ty (pos n) }
{
    with_pattern(ty, low_bits(ty, n))
}
