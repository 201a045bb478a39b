//! Which values are of a type.

ghost use Rattle.std.specs.Prelude.{◌≡◌, ◌↔◌, IsTrue, IfOk, Some};
ghost use Rattle.isle_core.specs.HasType.{IsReduced};
ghost use Rattle.isle_core.specs.ValueViews.{value};
ghost use Rattle.isle_outcomes.specs.Fields.{fields};
ghost use Rattle.isle_places.specs.AskedViews.{asked as asked_of};
ghost use Rattle.isle_places.specs.DeclaredTypes.{These, tuple_fields};
ghost use Rattle.isle_interpreter.specs.Named.{IsNamed, AreAsked};
ghost use Rattle.isle_spelling.specs.Literal.{type_named};

use isle_core::{IntType, Text, Value};
use isle_places::{Asked, Types, is_numbered, struct_asked, takes_opaque, variant_asked};
use isle_spelling::{int_type_named, is_same};
use isle_tree::TFields;
use std::alloc::{AllocError, Global};

// Whether a number is one of the integer type of this name.
fn is_integer(name: &str, ty: IntType, number: i128) -> bool
    ensures { IsTrue result ↔ ((type_named name.now ≡ Some ty) × IsReduced ty number) }
{
    match int_type_named(name) {
        Some(named) => named == ty && ty.holds(number),
        None => false,
    }
}

/// Tells whether a value is of the type of this name. The only error is want of memory.
#[cycle(naming)]
#[tactic(auto, using(isle_outcomes::proofs::SeesValues::sees_values))]
pub fn is_named(
    alloc: Global,
    types: &Types<'_>,
    name: &str,
    given: &Value,
) -> Result<bool, AllocError>
    ensures { IfOk result (λ is. IsTrue is ↔ IsNamed types.now name.now (value given.now)) }
{
    match given {
        Value::Bool(_) => Ok(is_same("bool", name)),
        Value::Int(ty, number) => Ok(is_integer(name, *ty, *number)),
        Value::Opaque(ty, number) => {
            Ok(takes_opaque(types, name, ty.as_str()) && IntType::U128.holds(*number))
        }
        Value::Variant(ty, variant, parts) => {
            let asked = variant_asked(types, name, ty.as_str(), variant.as_str());
            are_asked(alloc, types, asked, parts.as_slice())
        }
        Value::Struct(ty, parts) => {
            let asked = struct_asked(types, name, ty.as_str());
            are_asked(alloc, types, asked, parts.as_slice())
        }
    }
}

// Whether fields are as a type asks for them.
#[cycle(naming)]
fn are_asked(
    alloc: Global,
    types: &Types<'_>,
    asked: Asked<'_, '_>,
    given: &[(Text, Value)],
) -> Result<bool, AllocError>
    ensures { IfOk result (λ are.
        IsTrue are ↔ AreAsked types.now (asked_of asked.entry) (fields given.now)) }
{
    let fields = match asked {
        Asked::Nowhere => return Ok(false),
        Asked::Anything => return Ok(true),
        Asked::Fields(fields) => fields.in_order(),
    };
    match fields {
        TFields::Unit => are_these(alloc, types, &[], given),
        TFields::Named(named) => are_these(alloc, types, named.as_slice(), given),
        TFields::Tuple(tys) => are_parts(alloc, types, tys.as_slice(), given),
    }
}

// Whether fields have these names and types, in order.
#[cycle(naming)]
#[tactic(auto, using(crate::proofs::AskedApart::asked_apart))]
fn are_these(
    alloc: Global,
    types: &Types<'_>,
    named: &[(Text, Text)],
    given: &[(Text, Value)],
) -> Result<bool, AllocError>
    ensures { IfOk result (λ are.
        IsTrue are ↔ AreAsked types.now (These named.now) (fields given.now)) }
{
    if named.len() != given.len() {
        return Ok(false);
    }
    for index in 0..named.len() {
        let asked = &named[index];
        let part = &given[index];
        if !is_same(part.0.as_str(), asked.0.as_str()) {
            return Ok(false);
        }
        if !is_named(alloc, types, asked.1.as_str(), &part.1)? {
            return Ok(false);
        }
    }
    Ok(true)
}

// Whether fields have numbers for names, and these types in order.
#[cycle(naming)]
#[tactic(auto, using(crate::proofs::AskedApart::tuple_apart))]
fn are_parts(
    alloc: Global,
    types: &Types<'_>,
    tys: &[Text],
    given: &[(Text, Value)],
) -> Result<bool, AllocError>
    ensures { IfOk result (λ are.
        IsTrue are ↔ AreAsked types.now (These (tuple_fields 0 tys.now)) (fields given.now)) }
{
    if tys.len() != given.len() {
        return Ok(false);
    }
    for index in 0..tys.len() {
        let part = &given[index];
        if !is_numbered(alloc, part.0.as_str(), index)? {
            return Ok(false);
        }
        if !is_named(alloc, types, tys[index].as_str(), &part.1)? {
            return Ok(false);
        }
    }
    Ok(true)
}
