//! Written truths and numbers at a type.

ghost use Rattle.std.specs.Prelude.{◌≡◌, IfOk, Option, Some, option_map};
ghost use Rattle.isle_core.specs.Rule.{Environment};
ghost use Rattle.isle_core.specs.ValueViews.{value};
ghost use Rattle.isle_lexer.specs.SignedViews.{signed};
ghost use Rattle.isle_run_inputs.specs.ValuesAt.{integer_in, opaque_in, truth_in, number_in};

use crate::number::is_of;
use isle_core::{BuiltinType, IntType, Text, TypeDef, TypeEnv, Value};
use isle_lexer::Signed;
use std::alloc::{AllocError, Global};

// A number at an integer type, if it is one of the type.
#[tactic(auto, using(isle_outcomes::proofs::SeesValues::sees_values))]
fn integer_in(ty: IntType, number: Signed) -> Option<Value>
    ensures { option_map value result ≡ integer_in ty (signed number) }
{
    if is_of(ty, number) {
        Some(Value::Int(ty, number.bits()))
    } else {
        None
    }
}

// An opaque number under a name, wrapped to 128 signed bits.
#[tactic(auto, using(isle_outcomes::proofs::SeesValues::sees_values))]
fn opaque_in(alloc: Global, name: &str, number: Signed) -> Result<Option<Value>, AllocError>
    ensures { IfOk result (λ v.
        option_map value v ≡ Some (opaque_in name.now (signed number))) }
{
    Ok(Some(Value::Opaque(Text::copied(alloc, name)?, number.bits())))
}

/// Returns a truth at a type of this definition: at `bool` alone there is one.
#[tactic(auto, using(isle_outcomes::proofs::SeesValues::sees_values))]
pub fn truth_in(def: &TypeDef, truth: bool) -> Option<Value>
    ensures { option_map value result ≡ truth_in def.now truth }
{
    match def {
        TypeDef::Builtin(BuiltinType::Bool) => Some(Value::Bool(truth)),
        TypeDef::Builtin(BuiltinType::Int(_))
        | TypeDef::Primitive { .. }
        | TypeDef::Enum { .. }
        | TypeDef::Struct { .. } => None,
    }
}

/// Returns a number at a type of this definition, if it is one of the type; one at a primitive or extern type is
/// opaque.
pub fn number_in(
    alloc: Global,
    typeenv: &TypeEnv,
    def: &TypeDef,
    number: Signed,
) -> Result<Option<Value>, AllocError>
    ensures { IfOk result (λ v.
        (env : Environment) → env.types ≡ typeenv.now
        → option_map value v ≡ number_in env def.now (signed number)) }
{
    match def {
        TypeDef::Builtin(BuiltinType::Int(ty)) => Ok(integer_in(*ty, number)),
        TypeDef::Primitive { rust, .. } => opaque_in(alloc, typeenv.symbol(*rust), number),
        TypeDef::Enum {
            name,
            is_extern: true,
            ..
        }
        | TypeDef::Struct {
            name,
            is_extern: true,
            ..
        } => opaque_in(alloc, typeenv.symbol(*name), number),
        TypeDef::Builtin(BuiltinType::Bool)
        | TypeDef::Enum {
            is_extern: false,
            ..
        }
        | TypeDef::Struct {
            is_extern: false,
            ..
        } => Ok(None),
    }
}
