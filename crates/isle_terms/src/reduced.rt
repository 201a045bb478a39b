//! Integers as the values of their type.

ghost use Rattle.std.specs.Prelude.{◌≡◌, Some};
ghost use Rattle.std.specs.Int.{w8, w16, w32, w64};
ghost use Rattle.isle_core.specs.Int.{residue};
ghost use Rattle.isle_terms.specs.Reduced.{reduced, integer_by, typed_integer};

use isle_core::{BuiltinType, IntType, TypeDef, TypeEnv, TypeId};

// The lowest 8 bits.
fn low_8(n: i128) -> u8
    ensures { result ≡ residue w8 n }
{
    n.rem_euclid(0x100).unsigned_abs() as u8
}

// The lowest 16 bits.
fn low_16(n: i128) -> u16
    ensures { result ≡ residue w16 n }
{
    n.rem_euclid(0x1_0000).unsigned_abs() as u16
}

// The lowest 32 bits.
fn low_32(n: i128) -> u32
    ensures { result ≡ residue w32 n }
{
    n.rem_euclid(0x1_0000_0000).unsigned_abs() as u32
}

// The lowest 64 bits.
fn low_64(n: i128) -> u64
    ensures { result ≡ residue w64 n }
{
    n.rem_euclid(0x1_0000_0000_0000_0000).unsigned_abs() as u64
}

// The number of the type that a number wraps to, u128 as its 128 signed bits.
#[tactic(auto, using(crate::proofs::ReducedLaws::reduced_is), unfolding(isle_core::specs::Int::wrapped))]
fn reduced(ty: IntType, n: i128) -> i128
    ensures { result ≡ reduced ty n }
{
    match ty {
        IntType::U8 => i128::from(low_8(n)),
        IntType::U16 => i128::from(low_16(n)),
        IntType::U32 => i128::from(low_32(n)),
        IntType::U64 | IntType::USize => i128::from(low_64(n)),
        IntType::I8 => i128::from(low_8(n).cast_signed()),
        IntType::I16 => i128::from(low_16(n).cast_signed()),
        IntType::I32 => i128::from(low_32(n).cast_signed()),
        IntType::I64 | IntType::ISize => i128::from(low_64(n).cast_signed()),
        IntType::U128 | IntType::I128 => n,
    }
}

// An integer as a type of this definition has it.
fn integer_by(def: &TypeDef, n: i128) -> Option<i128>
    ensures { result ≡ integer_by (Some def.now) n }
{
    match def {
        TypeDef::Builtin(BuiltinType::Bool) => None,
        TypeDef::Builtin(BuiltinType::Int(ty)) => Some(reduced(*ty, n)),
        TypeDef::Primitive { .. } => Some(reduced(IntType::I128, n)),
        TypeDef::Enum { .. } => None,
        TypeDef::Struct { .. } => None,
    }
}

/// Returns an integer with its type, where this type is expected.
pub fn typed_integer(types: &TypeEnv, expected: Option<TypeId>, n: i128) -> Option<(TypeId, i128)>
    ensures { result ≡ typed_integer types.now expected n }
{
    let ty = expected?;
    let def = types.types.as_slice().get(ty.index())?;
    let reduced = integer_by(def, n)?;
    Some((ty, reduced))
}
