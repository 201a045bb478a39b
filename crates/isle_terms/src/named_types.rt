//! Types by their names.

ghost use Rattle.std.specs.Prelude.{◌≡◌, ℕ, List, IfOk, is_some, not, map, option_map};
ghost use Rattle.std.specs.List.{list_all};
ghost use Rattle.isle_ast.specs.Tree.{Def};
ghost use Rattle.isle_declarations.specs.TermViews.{arg_types};
ghost use Rattle.isle_types.specs.Gathered.{IsBefore};
ghost use Rattle.isle_terms.specs.TypeNames.{type_named};
ghost use Rattle.isle_terms.specs.TermPass.{types_named};

use isle_core::{Name, TypeId};
use isle_declarations::ArgTypes;
use isle_types::Before;
use std::alloc::{AllocError, Global};

/// Returns the type of a name, if it is declared.
pub fn type_named(before: &Before, name: &Name) -> Option<TypeId>
    ensures { (defs : List Def) → IsBefore defs before.now → result ≡ type_named defs name.now }
{
    match before.types.find(name.as_str()) {
        Some(number) => Some(TypeId(number)),
        None => None,
    }
}

/// Tells whether each of the names is that of a type.
pub fn are_types(before: &Before, names: &[Name]) -> bool
    ensures { (defs : List Def) → IsBefore defs before.now
        → result ≡ list_all (λ (n : List ℕ). is_some (type_named defs n)) names.now }
{
    for name in names {
        if type_named(before, name).is_none() {
            return false;
        }
    }
    true
}

/// Returns the first of the names that is not that of a type.
pub fn missing_type<'b, 'd>(before: &Before, names: &'b [Name<'d>]) -> Option<&'b Name<'d>>
    ensures { (defs : List Def) → IsBefore defs before.now
        → is_some result ≡ not (list_all (λ (n : List ℕ). is_some (type_named defs n)) names.now) }
{
    for name in names {
        if type_named(before, name).is_none() {
            return Some(name);
        }
    }
    None
}

// The types of names, if all are declared.
fn plain_types(
    alloc: Global,
    before: &Before,
    names: &[Name],
) -> Result<Option<Vec<TypeId>>, AllocError>
    ensures { (defs : List Def) → IsBefore defs before.now
        → IfOk result
        (λ found. option_map (λ types. types.items) found ≡ types_named defs names.now) }
{
    let mut types = Vec::with_capacity(alloc, names.len())?;
    for name in names {
        match type_named(before, name) {
            Some(ty) => types.push(ty)?,
            None => return Ok(None),
        }
    }
    Ok(Some(types))
}

// The types of fields, if all are declared.
fn field_types(
    alloc: Global,
    before: &Before,
    fields: &[(Name, Name)],
) -> Result<Option<Vec<TypeId>>, AllocError>
    ensures { (defs : List Def) → IsBefore defs before.now
        → IfOk result
        (λ found. option_map (λ types. types.items) found
        ≡ types_named defs (map (λ f. f.1) fields.now)) }
{
    let mut types = Vec::with_capacity(alloc, fields.len())?;
    for field in fields {
        match type_named(before, &field.1) {
            Some(ty) => types.push(ty)?,
            None => return Ok(None),
        }
    }
    Ok(Some(types))
}

/// Returns the types of a term's arguments, if all are declared.
pub fn types_of(
    alloc: Global,
    before: &Before,
    args: ArgTypes,
) -> Result<Option<Vec<TypeId>>, AllocError>
    ensures { (defs : List Def) → IsBefore defs before.now
        → IfOk result
        (λ found. option_map (λ types. types.items) found
        ≡ types_named defs (arg_types args.entry)) }
{
    match args {
        ArgTypes::Plain(names) => plain_types(alloc, before, names),
        ArgTypes::Named(fields) => field_types(alloc, before, fields),
    }
}
