//! What is wrong with a declaration, with what names a term, with a converter, or with a head.

ghost use Rattle.std.specs.Prelude.{◌≡◌, ℕ, ℤ, List, Bool, Option, IfOk, take, option_map};
ghost use Rattle.isle_core.specs.declared.position.Pos.{Pos as Place};
ghost use Rattle.isle_ast.specs.Tree.{Def as PureDef, Pattern, IfLet, Expr, ExternConstructor};
ghost use Rattle.isle_ast.specs.Tree.{ExternExtractor, Extractor, Converter, Rule};
ghost use Rattle.isle_ast.specs.Views.{defs as seen};
ghost use Rattle.isle_declarations.specs.Heads.{terms_of, extern_terms, extractor_terms};
ghost use Rattle.isle_declarations.specs.Signatures.{signatures, externs, extractors};
ghost use Rattle.isle_types.specs.declared.row.Row.TheVariants as row;
ghost use Rattle.isle_types.specs.Gathered.{IsBefore};
ghost use Rattle.isle_terms.specs.ConverterViews.{AreMet};
ghost use Rattle.isle_terms.specs.Misfits.{AreNames, IsJudged, here, misfit_row, repeated_row, misdeclared_row};
ghost use Rattle.isle_terms.specs.TermFault.{term_row};

use crate::converters::{Conversion, Converters};
use crate::misfit::Misfit;
use crate::named_types::{missing_type, type_named};
use crate::names::Names;
use isle_core::Name;
use isle_declarations::repeats;
use isle_types::Before;
use std::alloc::{AllocError, Global};

/// How many arguments a term may have.
const MOST_ARGUMENTS: usize = 256;

/// Returns what is wrong with a declaration that has so many before it, as another declaration or a type gives its
/// term.
pub fn repeated<'b, 'd>(
    names: &Names<'_, 'b, 'd>,
    count: usize,
    term: &'b Name<'d>,
) -> Option<Misfit<'b, 'd>>
    requires { AreNames names.now }
    ensures { option_map misfit_row result
        ≡ repeated_row (seen names.now.declarations.now)
        (take count (terms_of (signatures (seen names.now.declarations.now)))) term.now }
{
    if names.is_declared_before(term, count) {
        return Some(Misfit::DeclaredTwice(term));
    }
    if names.before.made.find(term.as_str()).is_some() {
        return Some(Misfit::Made(term));
    }
    None
}

/// Returns what is wrong with a declaration in itself; it may be both `multi` and `partial`.
pub fn misdeclared<'b, 'd>(
    before: &Before,
    term: &'b Name<'d>,
    is_both: bool,
    args: &'b [Name<'d>],
    ret: &'b Name<'d>,
) -> Option<Misfit<'b, 'd>>
    ensures { (all : List PureDef) → IsBefore all before.now
        → option_map misfit_row result ≡ misdeclared_row all is_both args.now ret.now }
{
    if type_named(before, ret).is_none() {
        return Some(Misfit::TypeMissing(ret));
    }
    if let Some(ty) = missing_type(before, args) {
        return Some(Misfit::TypeMissing(ty));
    }
    if args.len() > MOST_ARGUMENTS {
        return Some(Misfit::ManyArguments(term));
    }
    if is_both {
        Some(Misfit::MultiAndPartial(term))
    } else {
        None
    }
}

/// Returns what is wrong with an external constructor that has so many before it.
pub fn external_misfit<'b, 'd>(
    names: &Names<'_, 'b, 'd>,
    count: usize,
    term: &'b Name<'d>,
) -> Option<Misfit<'b, 'd>>
    ensures { (bs : List PureDef) (func : List ℕ) (pos : Place)
        → take count (extern_terms (externs (seen names.now.declarations.now)))
        ≡ extern_terms (externs bs)
        → option_map misfit_row result
        ≡ term_row (here (seen names.now.declarations.now) bs)
        (ExternConstructor term.now func pos) }
{
    let Some(declared) = names.declared(term) else {
        return Some(Misfit::Undeclared(term));
    };
    if names.is_external_before(declared.number, count) {
        return Some(Misfit::SecondConstructor(term));
    }
    None
}

/// Returns what is wrong with an external extractor that has so many extractors before it.
pub fn function_misfit<'b, 'd>(
    names: &Names<'_, 'b, 'd>,
    count: usize,
    term: &'b Name<'d>,
    infallible: bool,
) -> Option<Misfit<'b, 'd>>
    ensures { (bs : List PureDef) (func : List ℕ) (pos : Place)
        → take count (extractor_terms (extractors (seen names.now.declarations.now)))
        ≡ extractor_terms (extractors bs)
        → option_map misfit_row result
        ≡ term_row (here (seen names.now.declarations.now) bs)
        (ExternExtractor term.now func infallible pos) }
{
    let Some(declared) = names.declared(term) else {
        return Some(Misfit::Undeclared(term));
    };
    if names.is_extracted_before(declared.number, count) {
        return Some(Misfit::SecondExtractor(term));
    }
    if infallible && declared.multi {
        return Some(Misfit::InfallibleMulti(term));
    }
    None
}

/// Returns what is wrong with an extractor by a template of these parameters that has so many extractors before it.
pub fn template_misfit<'b, 'd>(
    alloc: Global,
    names: &Names<'_, 'b, 'd>,
    count: usize,
    term: &'b Name<'d>,
    params: &'b [Name<'d>],
) -> Result<Option<Misfit<'b, 'd>>, AllocError>
    ensures { IfOk result (λ found.
        (bs : List PureDef) (template : Pattern) (pos : Place)
        → take count (extractor_terms (extractors (seen names.now.declarations.now)))
        ≡ extractor_terms (extractors bs)
        → option_map misfit_row found
        ≡ term_row (here (seen names.now.declarations.now) bs)
        (Extractor term.now params.now template pos)) }
{
    let Some(declared) = names.declared(term) else {
        return Ok(Some(Misfit::Undeclared(term)));
    };
    if names.is_extracted_before(declared.number, count) {
        return Ok(Some(Misfit::SecondExtractor(term)));
    }
    if params.len() != declared.args.len() {
        return Ok(Some(Misfit::ParameterCount(term, params.len(), declared.args.len())));
    }
    if repeats(alloc, params)? {
        return Ok(Some(Misfit::ParameterTwice(term)));
    }
    Ok(None)
}

// How a converter is wrong that does not fit after these.
fn converter_unfit<'b, 'd>(
    before: &Before,
    found: &Converters,
    given: Conversion<'b, 'd>,
) -> Misfit<'b, 'd>
    ensures { misfit_row result ≡ row.ConverterMisfit }
{
    let Some(from) = type_named(before, given.from) else {
        return Misfit::ConverterTypeMissing(given.from);
    };
    let Some(to) = type_named(before, given.to) else {
        return Misfit::ConverterTypeMissing(given.to);
    };
    match found.between(from, to) {
        Some(_) => Misfit::SecondConverter(given),
        None => Misfit::ConverterUnfit(given),
    }
}

/// Returns what is wrong with a converter that follows these; or else it is met.
pub fn converter_misfit<'b, 'd>(
    names: &Names<'_, 'b, 'd>,
    found: &mut Converters,
    given: Conversion<'b, 'd>,
) -> Result<Option<Misfit<'b, 'd>>, AllocError>
    requires { AreNames names.now }
    ensures { IfOk result (λ misfit.
        (bs : List PureDef) (pos : Place) → AreMet (seen names.now.declarations.now) bs found.old
        → IsJudged (seen names.now.declarations.now) bs
        (Converter given.entry.from.now given.entry.to.now given.entry.term.now pos) misfit
        found.new) }
{
    if names.declared(given.term).is_none() {
        return Ok(Some(Misfit::Undeclared(given.term)));
    }
    match found.known(names.declarations, names.before, names.terms, given) {
        Some(converter) => {
            found.add(converter)?;
            Ok(None)
        }
        None => Ok(Some(converter_unfit(names.before, found, given))),
    }
}

/// Returns what is wrong with the head of a rule.
pub fn head_misfit<'b, 'd>(names: &Names<'_, 'b, 'd>, term: &'b Name<'d>) -> Option<Misfit<'b, 'd>>
    ensures { (bs : List PureDef) (name : Option (List ℕ)) (prio : ℤ) (args : List Pattern)
        (iflets : List IfLet) (rhs : Expr) (pos : Place)
        → option_map misfit_row result
        ≡ term_row (here (seen names.now.declarations.now) bs)
        (Rule name prio term.now args iflets rhs pos) }
{
    let Some(declared) = names.declared(term) else {
        return Some(Misfit::HeadUndeclared(term));
    };
    if names.declarations.external(declared.number).is_some() {
        return Some(Misfit::HeadExternal(term));
    }
    None
}
