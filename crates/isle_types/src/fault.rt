//! The fault of definitions in their types and constants.

ghost use Rattle.std.specs.Prelude.{◌≡◌, List, Bool, IfOk, map, option_map};
ghost use Rattle.isle_core.specs.declared.position.Pos.{Pos as Place};
ghost use Rattle.isle_ast.specs.Tree.{Def as PureDef, TypeDecl, ExternConst};
ghost use Rattle.isle_ast.specs.Positions.{place_of};
ghost use Rattle.isle_ast.specs.Views.{def, defs as seen};
ghost use Rattle.isle_declarations.specs.DeclaredTypes.{made_by, made_of};
ghost use Rattle.isle_types.specs.Fault.{type_fault};
ghost use Rattle.isle_types.specs.Gathered.{AreKnown, body_row, IsBefore, IsJudged, IsScanned, AreChecked};
ghost use Rattle.isle_types.specs.Gathered.{misfit_row, TellsFault};

use crate::before::{Before, repeated_term};
use crate::bodies::{meets, missing_type, repeated_field, repeated_variant, type_of_many};
use crate::known_types::KnownTypes;
use crate::misfit::Misfit;
use crate::row::Row;
use isle_ast::{AstBody, Def};
use isle_core::{Error, List, Name, OutOfMemory, Pos, Span, Text};
use isle_declarations::{constant_of, made_each, type_of};
use std::alloc::{AllocError, Global};

// What is wrong with what a type is declared as.
fn body_misfit<'b, 'd>(
    alloc: Global,
    known: &KnownTypes,
    name: &'b Name<'d>,
    body: &'b AstBody<'d>,
) -> Result<Option<Misfit<'b, 'd>>, AllocError>
    ensures { IfOk result (λ found.
        (all : List PureDef) → AreKnown all known.now
        → option_map misfit_row found ≡ body_row all body.now) }
{
    if let Some(variant) = repeated_variant(alloc, body)? {
        return Ok(Some(Misfit::VariantTwice(variant)));
    }
    if let Some(field) = repeated_field(alloc, body)? {
        return Ok(Some(Misfit::FieldTwice(field)));
    }
    if let Some(ty) = missing_type(known, body) {
        return Ok(Some(Misfit::TypeMissing(ty)));
    }
    match type_of_many(name, body) {
        Some(many) => Ok(Some(Misfit::ManyFields(many))),
        None => Ok(None),
    }
}

// What is wrong with a type that makes these terms; it is met.
fn type_misfit<'b, 'd>(
    alloc: Global,
    known: &KnownTypes,
    before: &mut Before<'b>,
    name: &'b Name<'d>,
    body: &'b AstBody<'d>,
    made: &'b [Text],
) -> Result<Option<Misfit<'b, 'd>>, AllocError>
    requires { made.now ≡ made_by name.now body.now }
    ensures { IfOk result (λ found.
        (all bs : List PureDef) (is_extern is_nodebug : Bool) (pos : Place) → AreKnown all known.now
        → IsBefore bs before.old
        → IsJudged all bs (TypeDecl name.now is_extern is_nodebug body.now pos) found before.new) }
{
    if meets(&mut before.types, name.as_str())? {
        return Ok(Some(Misfit::TypeTwice(name)));
    }
    if let Some(misfit) = body_misfit(alloc, known, name, body)? {
        return Ok(Some(misfit));
    }
    match repeated_term(&mut before.made, made)? {
        Some(term) => Ok(Some(Misfit::TermTwice(term))),
        None => Ok(None),
    }
}

// What is wrong with a constant; it is met.
fn constant_misfit<'b, 'd>(
    known: &KnownTypes,
    before: &mut Before<'b>,
    name: &'b Name<'d>,
    ty: &'b Name<'d>,
) -> Result<Option<Misfit<'b, 'd>>, AllocError>
    ensures { IfOk result (λ found.
        (all bs : List PureDef) (pos : Place) → AreKnown all known.now → IsBefore bs before.old
        → IsJudged all bs (ExternConst name.now ty.now pos) found before.new) }
{
    if meets(&mut before.constants, name.as_str())? {
        return Ok(Some(Misfit::ConstantTwice(name)));
    }
    if known.is_scalar(ty) {
        Ok(None)
    } else {
        Ok(Some(Misfit::NotScalar(name, ty)))
    }
}

// What is wrong with a definition whose type makes these terms; it is met.
fn misfit_of<'b, 'd>(
    alloc: Global,
    known: &KnownTypes,
    before: &mut Before<'b>,
    given: &'b Def<'d>,
    made: &'b [Text],
) -> Result<Option<Misfit<'b, 'd>>, AllocError>
    requires { made.now ≡ made_of (def given.now) }
    ensures { IfOk result (λ found.
        (all bs : List PureDef) → AreKnown all known.now → IsBefore bs before.old
        → IsJudged all bs (def given.now) found before.new) }
{
    if let Some((name, body)) = type_of(given) {
        return type_misfit(alloc, known, before, name, body, made);
    }
    match constant_of(given) {
        Some((name, ty)) => constant_misfit(known, before, name, ty),
        None => Ok(None),
    }
}

/// Returns the place of a definition.
pub fn place_of(given: &Def) -> Pos
    ensures { result ≡ place_of (def given.now) }
{
    match given {
        Def::TypeDecl { pos, .. } => *pos,
        Def::Decl { pos, .. } => *pos,
        Def::ExternConstructor { pos, .. } => *pos,
        Def::ExternExtractor { pos, .. } => *pos,
        Def::ExternConst { pos, .. } => *pos,
        Def::Extractor { pos, .. } => *pos,
        Def::Converter { pos, .. } => *pos,
        Def::Rule { pos, .. } => *pos,
        Def::Passed { pos, .. } => *pos,
    }
}

/// Returns the error that reports in these words that a definition at this place breaks a row of the typing table.
pub fn type_error(row: Row, pos: Pos, msg: Text) -> Error
    ensures { TellsFault (row, pos) result }
{
    Error::TypeError {
        row: row.number(),
        msg,
        span: Span::new_single(pos),
    }
}

// The first thing that is wrong with definitions whose types make these terms, with the place of its definition; or
// else what they declare.
fn first_misfit<'b, 'd>(
    alloc: Global,
    defs: &'b [Def<'d>],
    made: &'b [List<Text>],
) -> Result<Result<Before<'b>, (Misfit<'b, 'd>, Pos)>, AllocError>
    requires { made.now ≡ map made_of (seen defs.now) }
    ensures { IfOk result (λ found. IsScanned (seen defs.now) found) }
{
    let known = KnownTypes::gather(alloc, defs)?;
    let mut before = Before::new(alloc)?;
    for (index, given) in defs.iter().enumerate() {
        let Some(terms) = made.get(index) else {
            return Ok(Ok(before));
        };
        if let Some(misfit) = misfit_of(alloc, &known, &mut before, given, terms.as_slice())? {
            return Ok(Err((misfit, place_of(given))));
        }
    }
    Ok(Ok(before))
}

/// Looks for types and constants that break a row of the typing table, among definitions whose types make these terms:
/// gives the error of the first definition that does, by the lowest row that it breaks (`specs/Fault.antt`); or else
/// what the definitions declare. The only other error is want of memory.
pub fn check_types<'b, 'd>(
    alloc: Global,
    defs: &'b [Def<'d>],
    made: &'b [List<Text>],
) -> Result<Result<Before<'b>, Error>, OutOfMemory>
    requires { made.now ≡ map made_of (seen defs.now) }
    ensures { IfOk result (λ found. AreChecked (seen defs.now) found) }
{
    match first_misfit(alloc, defs, made)? {
        Ok(before) => Ok(Ok(before)),
        Err((misfit, pos)) => Ok(Err(type_error(misfit.row(), pos, misfit.words(alloc)?))),
    }
}
