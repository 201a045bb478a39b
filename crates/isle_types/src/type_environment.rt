//! The types and constants of definitions, with the symbols.

ghost use Rattle.std.specs.Prelude.{◌≡◌, ◌++◌, IfOk, OnOk, map, option_map, option_to_list, filter_map};
ghost use Rattle.isle_ast.specs.Views.{def, defs as seen};
ghost use Rattle.isle_declarations.specs.DeclaredTypes.{constant_of, constants};
ghost use Rattle.isle_types.specs.Builtins.{builtins};
ghost use Rattle.isle_types.specs.TypeEnvironment.{type_in, field_in, fields_in, variant_in, def_in};
ghost use Rattle.isle_types.specs.TypeEnvironment.{type_def_in, constant_in, type_env_of};
ghost use Rattle.isle_types.specs.Gathered.{IsBefore, AreNames};

use crate::before::Before;
use isle_ast::{AstBody, AstFields, AstVariant, Def};
use isle_core::{
    BuiltinType, Field, Fields, IntType, List, Name, Pos, Sym, Text, TypeDef, TypeEnv, TypeId,
    Variant,
};
use isle_declarations::{Declarations, constant_of};
use std::alloc::{AllocError, Global};

/// What names mean in definitions whose types and constants have no fault.
#[derive(Clone, Copy)]
struct Names<'k, 'b, 'd> {
    declarations: &'k Declarations<'b, 'd>,
    before: &'k Before<'b>,
}

impl<'k, 'b, 'd> Names<'k, 'b, 'd> {
    // The type of a name.
    fn type_id(&self, name: &Name) -> TypeId
        requires { AreNames self.now }
        ensures { result ≡ type_in (seen self.now.declarations.now) name.now }
    {
        self.before.type_id(name)
    }
}

// Named fields.
fn named_fields(
    alloc: Global,
    names: &Names,
    given: &[(Name, Name)],
) -> Result<Vec<Field>, AllocError>
    requires { AreNames names.now }
    ensures { IfOk result (λ fields.
        fields.items ≡ map (field_in (seen names.now.declarations.now)) given.now) }
{
    let mut fields = Vec::with_capacity(alloc, given.len())?;
    for field in given {
        fields.push(Field {
            name: names.declarations.sym(field.0.as_str()),
            ty: names.type_id(&field.1),
        })?;
    }
    Ok(fields)
}

// The types of fields without names.
fn tuple_types(alloc: Global, names: &Names, given: &[Name]) -> Result<Vec<TypeId>, AllocError>
    requires { AreNames names.now }
    ensures { IfOk result (λ types.
        types.items ≡ map (type_in (seen names.now.declarations.now)) given.now) }
{
    let mut types = Vec::with_capacity(alloc, given.len())?;
    for name in given {
        types.push(names.type_id(name))?;
    }
    Ok(types)
}

// The fields of a variant or a struct.
fn fields_of(alloc: Global, names: &Names, given: &AstFields) -> Result<Fields, AllocError>
    requires { AreNames names.now }
    ensures { IfOk result (λ fields.
        fields ≡ fields_in (seen names.now.declarations.now) given.now) }
{
    match given {
        AstFields::Unit => Ok(Fields::Unit),
        AstFields::Named(fields) => {
            let fields = named_fields(alloc, names, fields.as_slice())?;
            Ok(Fields::Struct(List::new(fields)))
        }
        AstFields::Tuple(types) => {
            let types = tuple_types(alloc, names, types.as_slice())?;
            Ok(Fields::Tuple(List::new(types)))
        }
    }
}

// The variants of an enum.
fn variants_of(
    alloc: Global,
    names: &Names,
    given: &[AstVariant],
) -> Result<Vec<Variant>, AllocError>
    requires { AreNames names.now }
    ensures { IfOk result (λ variants.
        variants.items ≡ map (variant_in (seen names.now.declarations.now)) given.now) }
{
    let mut variants = Vec::with_capacity(alloc, given.len())?;
    for variant in given {
        let fields = fields_of(alloc, names, &variant.fields)?;
        variants.push(Variant {
            name: names.declarations.sym(variant.name.as_str()),
            fields,
        })?;
    }
    Ok(variants)
}

// The type of this name and body.
fn type_def(
    alloc: Global,
    names: &Names,
    name: &Name,
    is_extern: bool,
    is_nodebug: bool,
    body: &AstBody,
    pos: Pos,
) -> Result<TypeDef, AllocError>
    requires { AreNames names.now }
    ensures { IfOk result (λ found.
        found ≡ def_in (seen names.now.declarations.now) name.now is_extern is_nodebug body.now
        pos) }
{
    let name = names.declarations.sym(name.as_str());
    match body {
        AstBody::Primitive(rust) => Ok(TypeDef::Primitive {
            name,
            rust: names.declarations.sym(rust.as_str()),
            pos,
        }),
        AstBody::Enum(variants) => {
            let variants = List::new(variants_of(alloc, names, variants.as_slice())?);
            Ok(TypeDef::Enum {
                name,
                is_extern,
                is_nodebug,
                variants,
                pos,
            })
        }
        AstBody::Struct(fields) => {
            let fields = fields_of(alloc, names, fields)?;
            Ok(TypeDef::Struct {
                name,
                is_extern,
                is_nodebug,
                fields,
                pos,
            })
        }
    }
}

// The type that a definition declares.
fn type_def_of(alloc: Global, names: &Names, given: &Def) -> Result<Option<TypeDef>, AllocError>
    requires { AreNames names.now }
    ensures { IfOk result (λ found.
        found ≡ type_def_in (seen names.now.declarations.now) (def given.now)) }
{
    match given {
        Def::TypeDecl {
            name,
            is_extern,
            is_nodebug,
            body,
            pos,
        } => {
            let found = type_def(alloc, names, name, *is_extern, *is_nodebug, body, *pos)?;
            Ok(Some(found))
        }
        _ => Ok(None),
    }
}

// The builtin types, by their numbers.
fn builtin_types(alloc: Global) -> Result<Vec<TypeDef>, AllocError>
    ensures { IfOk result (λ types. types.items ≡ builtins) }
{
    Ok(vec![in alloc;
        TypeDef::Builtin(BuiltinType::Bool),
        TypeDef::Builtin(BuiltinType::Int(IntType::U8)),
        TypeDef::Builtin(BuiltinType::Int(IntType::U16)),
        TypeDef::Builtin(BuiltinType::Int(IntType::U32)),
        TypeDef::Builtin(BuiltinType::Int(IntType::U64)),
        TypeDef::Builtin(BuiltinType::Int(IntType::U128)),
        TypeDef::Builtin(BuiltinType::Int(IntType::USize)),
        TypeDef::Builtin(BuiltinType::Int(IntType::I8)),
        TypeDef::Builtin(BuiltinType::Int(IntType::I16)),
        TypeDef::Builtin(BuiltinType::Int(IntType::I32)),
        TypeDef::Builtin(BuiltinType::Int(IntType::I64)),
        TypeDef::Builtin(BuiltinType::Int(IntType::I128)),
        TypeDef::Builtin(BuiltinType::Int(IntType::ISize)),
    ]?)
}

// Adds a thing, if there is one.
fn push_some<T: Drop>(things: &mut Vec<T>, found: Option<T>) -> Result<(), AllocError>
    ensures { OnOk result (things.new.items ≡ things.old.items ++ option_to_list found) }
{
    match found {
        Some(thing) => {
            things.push(thing)?;
            Ok(())
        }
        None => Ok(()),
    }
}

// The builtin types, and those declared.
fn type_defs(alloc: Global, names: &Names, defs: &[Def]) -> Result<Vec<TypeDef>, AllocError>
    requires { AreNames names.now }
    ensures { IfOk result (λ types.
        types.items ≡ builtins
        ++ filter_map (type_def_in (seen names.now.declarations.now)) (seen defs.now)) }
{
    let mut types = builtin_types(alloc)?;
    for given in defs {
        push_some(&mut types, type_def_of(alloc, names, given)?)?;
    }
    Ok(types)
}

// The constant that a definition declares, with its type.
fn constant_in<'b, 'd>(names: &Names, given: &'b Def<'d>) -> Option<(Sym, TypeId)>
    requires { AreNames names.now }
    ensures { result
        ≡ option_map (constant_in (seen names.now.declarations.now)) (constant_of (def given.now)) }
{
    match constant_of(given) {
        Some((name, ty)) => Some((names.declarations.sym(name.as_str()), names.type_id(ty))),
        None => None,
    }
}

// The constants, with their types.
fn constants_of<'b, 'd>(
    alloc: Global,
    names: &Names,
    defs: &'b [Def<'d>],
) -> Result<Vec<(Sym, TypeId)>, AllocError>
    requires { AreNames names.now }
    ensures { IfOk result (λ found.
        found.items ≡ map (constant_in (seen names.now.declarations.now))
        (constants (seen defs.now))) }
{
    let mut found = Vec::new(alloc);
    for given in defs {
        push_some(&mut found, constant_in(names, given))?;
    }
    Ok(found)
}

/// Returns the symbols, types and constants of definitions that declare this (`specs/TypeEnvironment.antt`). The only
/// error is want of memory.
pub fn type_env<'k, 'b, 'd>(
    alloc: Global,
    declarations: &'k Declarations<'b, 'd>,
    before: &'k Before<'b>,
) -> Result<TypeEnv, AllocError>
    requires { IsBefore (seen declarations.now) before.now }
    ensures { IfOk result (λ env. env ≡ type_env_of (seen declarations.now)) }
{
    let names = Names {
        declarations,
        before,
    };
    let defs = declarations.defs();
    Ok(TypeEnv {
        syms: List::new(declarations.symbols(alloc)?),
        types: List::new(type_defs(alloc, &names, defs)?),
        consts: List::new(constants_of(alloc, &names, defs)?),
    })
}
