//! The names of types as they are emitted.

ghost use Rattle.std.specs.Prelude.{◌≡◌};
ghost use Rattle.isle_lawful_names.specs.TypeItems.{text_at};
ghost use Rattle.isle_lawful_names.specs.LawfulNames.{emitted_name};

use isle_core::{BuiltinType, TypeDef, TypeEnv, TypeId};

/// Returns the name of a type as it is emitted.
pub fn emitted_name<'t>(types: &'t TypeEnv, def: &TypeDef) -> &'t str
    ensures { result.now ≡ emitted_name types.now def.now }
{
    match def {
        TypeDef::Builtin(BuiltinType::Bool) => "bool",
        TypeDef::Builtin(BuiltinType::Int(ty)) => ty.name(),
        TypeDef::Primitive { rust, .. } => types.symbol(*rust),
        TypeDef::Enum { name, .. } => types.symbol(*name),
        TypeDef::Struct { name, .. } => types.symbol(*name),
    }
}

/// Returns that of the type of this number; one that is not there has none.
pub fn text_at(types: &TypeEnv, ty: TypeId) -> &str
    ensures { result.now ≡ text_at types.now ty }
{
    match types.types.as_slice().get(ty.index()) {
        Some(def) => emitted_name(types, def),
        None => "",
    }
}
