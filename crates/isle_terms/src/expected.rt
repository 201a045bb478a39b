//! What may stand where a type is expected.

ghost use Rattle.std.specs.Prelude.{◌≡◌};
ghost use Rattle.isle_terms.specs.Expected.{takes_integers, takes_truths};

use isle_core::{BuiltinType, TypeDef, TypeEnv, TypeId};

/// Tells whether an integer may stand where this type is expected: if none is, it may not.
pub fn takes_integers(types: &TypeEnv, expected: Option<TypeId>) -> bool
    ensures { result ≡ takes_integers types.now expected }
{
    let Some(ty) = expected else {
        return false;
    };
    match types.types.as_slice().get(ty.index()) {
        Some(TypeDef::Builtin(BuiltinType::Int(_))) | Some(TypeDef::Primitive { .. }) => true,
        Some(TypeDef::Builtin(BuiltinType::Bool))
        | Some(TypeDef::Enum { .. })
        | Some(TypeDef::Struct { .. })
        | None => false,
    }
}

/// Tells whether `true` and `false` may stand where this type is expected: if none is, they may.
pub fn takes_truths(types: &TypeEnv, expected: Option<TypeId>) -> bool
    ensures { result ≡ takes_truths types.now expected }
{
    let Some(ty) = expected else {
        return true;
    };
    match types.types.as_slice().get(ty.index()) {
        Some(TypeDef::Builtin(BuiltinType::Bool)) => true,
        Some(TypeDef::Builtin(BuiltinType::Int(_)))
        | Some(TypeDef::Primitive { .. })
        | Some(TypeDef::Enum { .. })
        | Some(TypeDef::Struct { .. })
        | None => false,
    }
}
