//! The names and types in the head of a term's function.

ghost use Rattle.std.specs.Prelude.{◌≡◌, map, slice_get, IfOk};
ghost use Rattle.isle_core.specs.RuleViews.{environment};
ghost use Rattle.isle_core.specs.Terms.{symbol_text};
ghost use Rattle.isle_simulation.specs.TypeTexts.{def_text, type_text, parameter, is_by_ref};

use isle_core::{BuiltinType, Sym, TermEnv, Text, TypeDef, TypeEnv, TypeId};
use isle_tree::Ty;
use std::alloc::{AllocError, Global};

// Returns the name of a type as it is emitted.
fn type_text(typeenv: &TypeEnv, ty: TypeId) -> &str
    ensures { result.now ≡ def_text typeenv.now (slice_get typeenv.now.types ty.0) }
{
    match typeenv.types.as_slice().get(ty.index()) {
        Some(TypeDef::Builtin(BuiltinType::Bool)) => "bool",
        Some(TypeDef::Builtin(BuiltinType::Int(ty))) => ty.name(),
        Some(TypeDef::Primitive { rust, .. }) => typeenv.symbol(*rust),
        Some(TypeDef::Enum { name, .. }) | Some(TypeDef::Struct { name, .. }) => {
            typeenv.symbol(*name)
        }
        None => "",
    }
}

/// Returns whether a parameter of the type stands behind a reference.
pub fn is_by_ref(typeenv: &TypeEnv, ty: TypeId) -> bool
    ensures { result ≡ is_by_ref (slice_get typeenv.now.types ty.0) }
{
    match typeenv.types.as_slice().get(ty.index()) {
        Some(TypeDef::Enum { .. }) | Some(TypeDef::Struct { .. }) => true,
        Some(TypeDef::Builtin(_)) | Some(TypeDef::Primitive { .. }) | None => false,
    }
}

/// Makes the name of a symbol.
pub fn sym_name(alloc: Global, typeenv: &TypeEnv, sym: Sym) -> Result<Text, AllocError>
    ensures { IfOk result (λ name. name ≡ symbol_text typeenv.now sym) }
{
    Text::copied(alloc, typeenv.symbol(sym))
}

/// Makes the name of a type as it is emitted.
pub fn ty_name(alloc: Global, typeenv: &TypeEnv, ty: TypeId) -> Result<Text, AllocError>
    ensures { IfOk result (λ name. name ≡ def_text typeenv.now (slice_get typeenv.now.types ty.0)) }
{
    Text::copied(alloc, type_text(typeenv, ty))
}

/// Makes the names of types, in order.
pub fn ty_names(
    alloc: Global,
    typeenv: &TypeEnv,
    termenv: &TermEnv,
    tys: &[TypeId],
) -> Result<Vec<Text>, AllocError>
    ensures { IfOk result (λ names.
        names.items ≡ map (type_text (environment typeenv.now termenv.now)) tys.now) }
{
    let mut names = Vec::new(alloc);
    for ty in tys {
        names.push(ty_name(alloc, typeenv, *ty)?)?;
    }
    Ok(names)
}

/// Makes the types of the parameters.
pub fn params(
    alloc: Global,
    typeenv: &TypeEnv,
    termenv: &TermEnv,
    tys: &[TypeId],
) -> Result<Vec<Ty>, AllocError>
    ensures { IfOk result (λ params.
        params.items ≡ map (parameter (environment typeenv.now termenv.now)) tys.now) }
{
    let mut params = Vec::new(alloc);
    for ty in tys {
        params.push(Ty {
            by_ref: is_by_ref(typeenv, *ty),
            name: ty_name(alloc, typeenv, *ty)?,
        })?;
    }
    Ok(params)
}
