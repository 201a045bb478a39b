//! The names of types, of their variants and of fields.

ghost use Rattle.std.specs.Prelude.{◌≡◌, [], ◌∷◌, false, flat_map, is_some, IfOk};
ghost use Rattle.isle_core.specs.declared.types.Fields.TheVariants as shape;
ghost use Rattle.isle_core.specs.Rule.{Environment};
ghost use Rattle.isle_core.specs.Terms.{symbol_text};
ghost use Rattle.isle_lawful_names.specs.LawfulNames.{emitted_name, emitted_names};
ghost use Rattle.isle_lawful_names.specs.NameSet.{HasNames};
ghost use Rattle.isle_lawful_names.specs.Claims.{OfType, OfVariant, OfField, is_ruled, field_claims, variant_claims};
ghost use Rattle.isle_lawful_names.specs.Claims.{part_claims, type_claims};
ghost use Rattle.isle_lawful_names.specs.Judges.{Judges, JudgesBehind};

use crate::lawful::is_type_name;
use crate::name_error::NameUse;
use crate::name_set::added;
use crate::single::unless_lawful;
use crate::texts::emitted_name;
use isle_core::{Field, Fields, Sym, TypeDef, TypeEnv, Variant};
use isle_spelling::is_identifier;
use std::alloc::AllocError;
use std::collections::BTreeSet;

// The name of a field, unless it may be emitted.
fn field_found(types: &TypeEnv, name: Sym) -> Option<(NameUse, &str)>
    ensures { (env : Environment) → Judges env (OfField (symbol_text types.now name) ∷ []) result }
{
    let text = types.symbol(name);
    unless_lawful(is_identifier(text), NameUse::Field, text)
}

// The first of named fields whose name may not be emitted.
fn in_named<'a>(types: &'a TypeEnv, fields: &[Field]) -> Option<(NameUse, &'a str)>
    ensures { (env : Environment)
        → Judges env (field_claims types.now (shape.Struct fields.now)) result }
{
    for field in fields {
        let found = field_found(types, field.name);
        if found.is_some() {
            return found;
        }
    }
    None
}

// So of the fields of a variant or a struct.
fn in_fields<'a>(types: &'a TypeEnv, fields: &Fields) -> Option<(NameUse, &'a str)>
    ensures { (env : Environment) → Judges env (field_claims types.now fields.now) result }
{
    match fields {
        Fields::Unit => None,
        Fields::Struct(named) => in_named(types, named.as_slice()),
        Fields::Tuple(_) => None,
    }
}

// The name of a variant, unless it may be emitted.
fn variant_found(types: &TypeEnv, name: Sym) -> Option<(NameUse, &str)>
    ensures { (env : Environment)
        → Judges env (OfVariant (symbol_text types.now name) ∷ []) result }
{
    let text = types.symbol(name);
    unless_lawful(is_identifier(text), NameUse::Variant, text)
}

// The first of the names of a variant and its fields that may not be emitted.
fn in_variant<'a>(types: &'a TypeEnv, variant: &Variant) -> Option<(NameUse, &'a str)>
    ensures { (env : Environment) → Judges env (variant_claims types.now variant.now) result }
{
    let found = variant_found(types, variant.name);
    if found.is_some() {
        return found;
    }
    in_fields(types, &variant.fields)
}

// So of all variants.
fn in_variants<'a>(types: &'a TypeEnv, variants: &[Variant]) -> Option<(NameUse, &'a str)>
    ensures { (env : Environment)
        → Judges env (flat_map (variant_claims types.now) variants.now) result }
{
    for variant in variants {
        let found = in_variant(types, variant);
        if found.is_some() {
            return found;
        }
    }
    None
}

// So of the variants and fields of a type.
fn in_parts<'a>(types: &'a TypeEnv, def: &TypeDef) -> Option<(NameUse, &'a str)>
    ensures { (env : Environment) → Judges env (part_claims types.now def.now) result }
{
    match def {
        TypeDef::Enum { variants, .. } => in_variants(types, variants.as_slice()),
        TypeDef::Struct { fields, .. } => in_fields(types, fields),
        TypeDef::Builtin(_) | TypeDef::Primitive { .. } => None,
    }
}

// The name of a type, unless it may be emitted after the earlier ones, to which it is added.
fn name_found<'a>(
    has_rules: bool,
    names: &mut BTreeSet<&'a str>,
    name: &'a str,
) -> Result<Option<(NameUse, &'a str)>, AllocError>
    ensures { (env : Environment) → is_ruled env.rules ≡ has_rules
        → IfOk result
        (λ found. JudgesBehind env (λ earlier. OfType earlier name.now ∷ []) (name.now ∷ [])
        names.old names.new found) }
{
    let fresh = added(names, name)?;
    let lawful = is_type_name(name, has_rules) & fresh;
    Ok(unless_lawful(lawful, NameUse::TypeName, name))
}

// The first of the names of a type and its parts that may not be emitted.
fn in_type<'a>(
    types: &'a TypeEnv,
    has_rules: bool,
    names: &mut BTreeSet<&'a str>,
    def: &TypeDef,
) -> Result<Option<(NameUse, &'a str)>, AllocError>
    ensures { (env : Environment) → is_ruled env.rules ≡ has_rules
        → IfOk result
        (λ found. JudgesBehind env
        (λ earlier. OfType earlier (emitted_name types.now def.now) ∷ part_claims types.now def.now)
        (emitted_name types.now def.now ∷ []) names.old names.new found) }
{
    let found = name_found(has_rules, names, emitted_name(types, def))?;
    if found.is_some() {
        return Ok(found);
    }
    Ok(in_parts(types, def))
}

/// Gives the first name of a type, a variant or a field that may not be emitted; if there is none, the set has the
/// names of all types. It is empty before. The only error is want of memory.
pub fn unlawful_type<'a>(
    types: &'a TypeEnv,
    has_rules: bool,
    names: &mut BTreeSet<&'a str>,
) -> Result<Option<(NameUse, &'a str)>, AllocError>
    requires { HasNames [] names.old }
    ensures first { (env : Environment) → is_ruled env.rules ≡ has_rules
        → IfOk result (λ found. Judges env (type_claims types.now [] types.now.types) found) }
    ensures names { (env : Environment) → is_ruled env.rules ≡ has_rules
        → IfOk result
        (λ found. is_some found ≡ false
        → HasNames (emitted_names types.now types.now.types) names.new) }
{
    for def in types.types.as_slice() {
        let found = in_type(types, has_rules, names, def)?;
        if found.is_some() {
            return Ok(found);
        }
    }
    Ok(None)
}
