//! Written values at a type, with all that is inside them.

ghost use Rattle.std.specs.Prelude.{◌≡◌, IfOk, ℕ, Option, option_map, option_and_then, slice_get};
ghost use Rattle.isle_core.specs.HasType.{typed_fields};
ghost use Rattle.isle_core.specs.Rule.{Environment};
ghost use Rattle.isle_core.specs.Value.{Variant, Struct};
ghost use Rattle.isle_core.specs.ValueViews.{value};
ghost use Rattle.isle_outcomes.specs.Fields.{fields};
ghost use Rattle.isle_values.specs.Views.{written, seen};
ghost use Rattle.isle_values.specs.Written.{Made};
ghost use Rattle.isle_run_inputs.specs.ValuesAt.{value_in, field_in, fields_in};
ghost use Rattle.isle_run_inputs.specs.MakerViews.{field_seen};

use crate::maker::{Making, TypeMakers};
use crate::makers::Makers;
use crate::simple_value::{number_in, truth_in};
use isle_core::{Fields, List, Text, TypeId, Value, field_count};
use isle_values::Written;
use std::alloc::{AllocError, Global};

// The variant of these names and fields, if there are fields.
#[tactic(auto, using(isle_outcomes::proofs::SeesValues::sees_values))]
fn variant_of(
    alloc: Global,
    ty: &str,
    variant: &str,
    given: Option<Vec<(Text, Value)>>,
) -> Result<Option<Value>, AllocError>
    ensures { IfOk result (λ v.
        option_map value v
        ≡ option_map (Variant ty.now variant.now) (option_map (λ g. fields g.items) given)) }
{
    match given {
        Some(given) => {
            let ty = Text::copied(alloc, ty)?;
            let variant = Text::copied(alloc, variant)?;
            Ok(Some(Value::Variant(ty, variant, List::new(given))))
        }
        None => Ok(None),
    }
}

// The struct of this name and these fields, if there are fields.
#[tactic(auto, using(isle_outcomes::proofs::SeesValues::sees_values))]
fn struct_of(
    alloc: Global,
    ty: &str,
    given: Option<Vec<(Text, Value)>>,
) -> Result<Option<Value>, AllocError>
    ensures { IfOk result (λ v.
        option_map value v ≡ option_map (Struct ty.now) (option_map (λ g. fields g.items) given)) }
{
    match given {
        Some(given) => Ok(Some(Value::Struct(Text::copied(alloc, ty)?, List::new(given)))),
        None => Ok(None),
    }
}

/// Returns a written value at this type, if it is one of the type with all that is inside it.
#[cycle(typing)]
#[tactic(auto, using(isle_values::proofs::Sees::sees))]
pub fn value_in(
    alloc: Global,
    makers: &Makers<'_>,
    at: &TypeMakers<'_>,
    given: &Written,
) -> Result<Option<Value>, AllocError>
    requires { at.now.0 ≡ makers.now }
    ensures { IfOk result (λ v.
        (env : Environment) → env.types ≡ makers.now
        → option_map value v ≡ value_in env at.now.1 (written given.now)) }
{
    match given {
        Written::Bool(truth) => Ok(truth_in(at.def(), *truth)),
        Written::Number(number) => number_in(alloc, makers.typeenv(), at.def(), *number),
        Written::Made(name, parts) => made_in(alloc, makers, at, name.as_str(), parts.as_slice()),
    }
}

// What a name makes of written parts.
#[cycle(typing)]
fn made_in(
    alloc: Global,
    makers: &Makers<'_>,
    at: &TypeMakers<'_>,
    name: &str,
    parts: &[Written],
) -> Result<Option<Value>, AllocError>
    requires { at.now.0 ≡ makers.now }
    ensures { IfOk result (λ v.
        (env : Environment) → env.types ≡ makers.now
        → option_map value v ≡ value_in env at.now.1 (Made name.now (seen parts.now))) }
{
    match at.makes(name) {
        Making::Variant(ty, variant, fields) => {
            let found = fields_in(alloc, makers, fields, parts)?;
            variant_of(alloc, ty, variant, found)
        }
        Making::Struct(ty, fields) => {
            let found = fields_in(alloc, makers, fields, parts)?;
            struct_of(alloc, ty, found)
        }
        Making::Nothing => Ok(None),
    }
}

// As many values as fields, each at the type of its field.
#[cycle(typing)]
fn fields_in(
    alloc: Global,
    makers: &Makers<'_>,
    given: &Fields,
    parts: &[Written],
) -> Result<Option<Vec<(Text, Value)>>, AllocError>
    ensures { IfOk result (λ found. (env : Environment) → env.types ≡ makers.now
        → option_map (λ f. fields f.items) found
        ≡ fields_in env (typed_fields env given.now) (seen parts.now)) }
{
    if field_count(given) != parts.len() {
        return Ok(None);
    }
    let mut found = Vec::new(alloc);
    for index in 0..parts.len() {
        match field_in(alloc, makers, given, index, &parts[index])? {
            Some(field) => found.push(field)?,
            None => return Ok(None),
        }
    }
    Ok(Some(found))
}

// A value at the type of the field of this number.
#[cycle(typing)]
fn field_in(
    alloc: Global,
    makers: &Makers<'_>,
    given: &Fields,
    index: usize,
    part: &Written,
) -> Result<Option<(Text, Value)>, AllocError>
    ensures { IfOk result (λ found. (env : Environment) → env.types ≡ makers.now
        → option_map field_seen found
        ≡ option_and_then (λ f. field_in env f (written part.now))
        (slice_get (typed_fields env given.now) index)) }
{
    match makers.typeenv().field_at(alloc, given, index)? {
        Some((name, ty)) => match typed_in(alloc, makers, ty, part)? {
            Some(value) => Ok(Some((name, value))),
            None => Ok(None),
        },
        None => Ok(None),
    }
}

// A written value at a type, if there is such a type and it is one of it.
#[cycle(typing)]
pub fn typed_in(
    alloc: Global,
    makers: &Makers<'_>,
    ty: TypeId,
    given: &Written,
) -> Result<Option<Value>, AllocError>
    ensures { IfOk result (λ v. (env : Environment) → env.types ≡ makers.now
        → option_map value v
        ≡ option_and_then (λ d. value_in env d (written given.now))
        (slice_get env.types.types ty.0)) }
{
    match makers.at(ty) {
        Some(at) => value_in(alloc, makers, at, given),
        None => Ok(None),
    }
}
