//! What may be wrong with what a type is declared as; each search gives the name concerned.

ghost use Rattle.std.specs.Prelude.{◌≡◌, ℕ, List, IfOk, OnOk, is_some, not, map};
ghost use Rattle.std.specs.List.{list_any};
ghost use Rattle.isle_ast.specs.Tree.{Def as PureDef};
ghost use Rattle.isle_ast.specs.declared.tree.AstFields.{AstFields as Fields};
ghost use Rattle.isle_ast.specs.declared.tree.AstVariant.{AstVariant as Variant};
ghost use Rattle.isle_declarations.specs.Symbols.{index_of, added};
ghost use Rattle.isle_declarations.specs.Repeats.{repeats};
ghost use Rattle.isle_types.specs.Bodies.{any_fields, field_names, field_types, variant_names};
ghost use Rattle.isle_types.specs.Bodies.{variants_repeat, fields_repeat, are_many};
ghost use Rattle.isle_types.specs.TypeNames.{is_type};
ghost use Rattle.isle_types.specs.Gathered.{AreKnown};

use crate::known_types::KnownTypes;
use isle_ast::{AstBody, AstFields, AstVariant};
use isle_core::Name;
use isle_declarations::Symbols;
use std::alloc::{AllocError, Global};

/// How many fields a variant or a struct may have.
const MOST_FIELDS: usize = 256;

/// Tells whether a name was met before; it is met now.
#[tactic(auto, using(crate::proofs::KnownLaws::met_before))]
pub fn meets<'b>(before: &mut Symbols<'b>, name: &'b str) -> Result<bool, AllocError>
    ensures found { IfOk result (λ found. found ≡ is_some (index_of before.old name.now)) }
    ensures names { OnOk result (before.new ≡ added before.old name.now) }
{
    let met = before.len();
    let place = before.intern(name)?;
    Ok(place < met)
}

// The first variant of an earlier one's name.
fn variant_again<'b, 'd>(
    alloc: Global,
    variants: &'b [AstVariant<'d>],
) -> Result<Option<&'b Name<'d>>, AllocError>
    ensures { IfOk result (λ found. is_some found ≡ repeats (variant_names variants.now)) }
{
    let mut before = Symbols::new(alloc);
    for variant in variants {
        if meets(&mut before, variant.name.as_str())? {
            return Ok(Some(&variant.name));
        }
    }
    Ok(None)
}

// The first field of an earlier one's name, if there are several.
#[tactic(auto, using(crate::proofs::KnownLaws::few_again))]
fn named_again<'b, 'd>(
    alloc: Global,
    fields: &'b [(Name<'d>, Name<'d>)],
) -> Result<Option<&'b Name<'d>>, AllocError>
    ensures { IfOk result (λ found.
        is_some found ≡ repeats (map (λ (f : List ℕ × List ℕ). f.0) fields.now)) }
{
    if fields.len() < 2 {
        return Ok(None);
    }
    let mut before = Symbols::new(alloc);
    for field in fields {
        if meets(&mut before, field.0.as_str())? {
            return Ok(Some(&field.0));
        }
    }
    Ok(None)
}

// The same of the fields of a variant or a struct.
fn field_again<'b, 'd>(
    alloc: Global,
    fields: &'b AstFields<'d>,
) -> Result<Option<&'b Name<'d>>, AllocError>
    ensures { IfOk result (λ found. is_some found ≡ fields_repeat fields.now) }
{
    match fields {
        AstFields::Unit => Ok(None),
        AstFields::Named(fields) => named_again(alloc, fields.as_slice()),
        AstFields::Tuple(_) => Ok(None),
    }
}

// The same of the variants' fields.
fn field_of_variant_again<'b, 'd>(
    alloc: Global,
    variants: &'b [AstVariant<'d>],
) -> Result<Option<&'b Name<'d>>, AllocError>
    ensures { IfOk result (λ found.
        is_some found ≡ list_any (λ (v : Variant). fields_repeat v.fields) variants.now) }
{
    for variant in variants {
        let found = field_again(alloc, &variant.fields)?;
        if found.is_some() {
            return Ok(found);
        }
    }
    Ok(None)
}

/// Returns a variant of an enum with an earlier one's name.
pub fn repeated_variant<'b, 'd>(
    alloc: Global,
    body: &'b AstBody<'d>,
) -> Result<Option<&'b Name<'d>>, AllocError>
    ensures { IfOk result (λ found. is_some found ≡ variants_repeat body.now) }
{
    match body {
        AstBody::Primitive(_) => Ok(None),
        AstBody::Enum(variants) => variant_again(alloc, variants.as_slice()),
        AstBody::Struct(_) => Ok(None),
    }
}

/// Returns a field of a type with the name of an earlier one in its variant or struct.
pub fn repeated_field<'b, 'd>(
    alloc: Global,
    body: &'b AstBody<'d>,
) -> Result<Option<&'b Name<'d>>, AllocError>
    ensures { IfOk result (λ found. is_some found ≡ any_fields fields_repeat body.now) }
{
    match body {
        AstBody::Primitive(_) => Ok(None),
        AstBody::Enum(variants) => field_of_variant_again(alloc, variants.as_slice()),
        AstBody::Struct(fields) => field_again(alloc, fields),
    }
}

// The first of the fields' types that is not declared.
fn named_missing<'b, 'd>(
    known: &KnownTypes,
    fields: &'b [(Name<'d>, Name<'d>)],
) -> Option<&'b Name<'d>>
    ensures { (defs : List PureDef) → AreKnown defs known.now
        → is_some result
        ≡ list_any (λ (name : List ℕ). not (is_type defs name))
        (map (λ (f : List ℕ × List ℕ). f.1) fields.now) }
{
    for field in fields {
        if !known.is_type(&field.1) {
            return Some(&field.1);
        }
    }
    None
}

// The first of these types that is not declared.
fn type_missing<'b, 'd>(known: &KnownTypes, types: &'b [Name<'d>]) -> Option<&'b Name<'d>>
    ensures { (defs : List PureDef) → AreKnown defs known.now
        → is_some result ≡ list_any (λ (name : List ℕ). not (is_type defs name)) types.now }
{
    for ty in types {
        if !known.is_type(ty) {
            return Some(ty);
        }
    }
    None
}

// The first of the types of a variant's or a struct's fields that is not declared.
fn field_type_missing<'b, 'd>(known: &KnownTypes, fields: &'b AstFields<'d>) -> Option<&'b Name<'d>>
    ensures { (defs : List PureDef) → AreKnown defs known.now
        → is_some result
        ≡ list_any (λ (name : List ℕ). not (is_type defs name)) (field_types fields.now) }
{
    match fields {
        AstFields::Unit => None,
        AstFields::Named(fields) => named_missing(known, fields.as_slice()),
        AstFields::Tuple(types) => type_missing(known, types.as_slice()),
    }
}

// The same of the variants' fields.
fn variant_type_missing<'b, 'd>(
    known: &KnownTypes,
    variants: &'b [AstVariant<'d>],
) -> Option<&'b Name<'d>>
    ensures { (defs : List PureDef) → AreKnown defs known.now
        → is_some result
        ≡ list_any (λ (v : Variant). list_any (λ (name : List ℕ). not (is_type defs name))
        (field_types v.fields)) variants.now }
{
    for variant in variants {
        let found = field_type_missing(known, &variant.fields);
        if found.is_some() {
            return found;
        }
    }
    None
}

/// Returns a field's type that is not declared.
pub fn missing_type<'b, 'd>(known: &KnownTypes, body: &'b AstBody<'d>) -> Option<&'b Name<'d>>
    ensures { (defs : List PureDef) → AreKnown defs known.now
        → is_some result
        ≡ any_fields
        (λ (fields : Fields). list_any (λ (name : List ℕ). not (is_type defs name))
        (field_types fields)) body.now }
{
    match body {
        AstBody::Primitive(_) => None,
        AstBody::Enum(variants) => variant_type_missing(known, variants.as_slice()),
        AstBody::Struct(fields) => field_type_missing(known, fields),
    }
}

// Whether there are more fields than there may be.
fn are_many(fields: &AstFields) -> bool
    ensures { result ≡ are_many fields.now }
{
    match fields {
        AstFields::Unit => false,
        AstFields::Named(fields) => fields.as_slice().len() > MOST_FIELDS,
        AstFields::Tuple(types) => types.as_slice().len() > MOST_FIELDS,
    }
}

// The first variant with too many fields.
fn variant_of_many<'b, 'd>(variants: &'b [AstVariant<'d>]) -> Option<&'b Name<'d>>
    ensures { is_some result ≡ list_any (λ (v : Variant). are_many v.fields) variants.now }
{
    for variant in variants {
        if are_many(&variant.fields) {
            return Some(&variant.name);
        }
    }
    None
}

/// Returns a variant or a struct with too many fields; the struct's name is given.
pub fn type_of_many<'b, 'd>(name: &'b Name<'d>, body: &'b AstBody<'d>) -> Option<&'b Name<'d>>
    ensures { is_some result ≡ any_fields are_many body.now }
{
    match body {
        AstBody::Primitive(_) => None,
        AstBody::Enum(variants) => variant_of_many(variants.as_slice()),
        AstBody::Struct(fields) => { if are_many(fields) { Some(name) } else { None } }
    }
}
