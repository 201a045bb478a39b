//! The fault of definitions in their declarations, in what names their terms, in converters, and in heads.

ghost use Rattle.std.specs.Prelude.{◌≡◌, List, IfOk};
ghost use Rattle.isle_ast.specs.Tree.{Def as PureDef};
ghost use Rattle.isle_ast.specs.Views.{def, defs as seen};
ghost use Rattle.isle_declarations.specs.TermViews.{AreTerms};
ghost use Rattle.isle_types.specs.Gathered.{IsBefore};
ghost use Rattle.isle_terms.specs.ConverterViews.{AreMet};
ghost use Rattle.isle_terms.specs.Misfits.{AreNames, ArePlaced, IsJudged, IsScanned, AreChecked};

use crate::converters::{Conversion, Converters};
use crate::counts::Counts;
use crate::declaration_misfits::{
    converter_misfit, external_misfit, function_misfit, head_misfit, misdeclared, repeated,
    template_misfit,
};
use crate::misfit::Misfit;
use crate::names::Names;
use isle_ast::Def;
use isle_core::{Error, OutOfMemory, Pos};
use isle_declarations::{Declarations, Terms};
use isle_types::{Before, place_of, type_error};
use std::alloc::{AllocError, Global};

// What is wrong with a definition that has so many before it; or else it is met.
fn misfit_of<'b, 'd>(
    alloc: Global,
    names: &Names<'_, 'b, 'd>,
    counts: Counts,
    found: &mut Converters,
    given: &'b Def<'d>,
) -> Result<Option<Misfit<'b, 'd>>, AllocError>
    requires { AreNames names.now }
    ensures { IfOk result (λ misfit.
        (bs : List PureDef) → ArePlaced (seen names.now.declarations.now) bs counts
        → AreMet (seen names.now.declarations.now) bs found.old
        → IsJudged (seen names.now.declarations.now) bs (def given.now) misfit found.new) }
{
    match given {
        Def::Decl {
            term,
            multi,
            partial,
            args,
            ret,
            ..
        } => {
            if let Some(misfit) = repeated(names, counts.signatures, term) {
                return Ok(Some(misfit));
            }
            Ok(misdeclared(names.before, term, *multi & *partial, args.as_slice(), ret))
        }
        Def::ExternConstructor { term, .. } => Ok(external_misfit(names, counts.externs, term)),
        Def::ExternExtractor {
            term,
            infallible,
            ..
        } => Ok(function_misfit(names, counts.extractors, term, *infallible)),
        Def::Extractor { term, params, .. } => {
            template_misfit(alloc, names, counts.extractors, term, params.as_slice())
        }
        Def::Converter { from, to, term, .. } => {
            converter_misfit(names, found, Conversion { from, to, term })
        }
        Def::Rule { term, .. } => Ok(head_misfit(names, term)),
        Def::TypeDecl { .. } | Def::ExternConst { .. } | Def::Passed { .. } => Ok(None),
    }
}

// The first thing that is wrong with definitions, with the place of its definition; or else their converters.
fn first_misfit<'b, 'd>(
    alloc: Global,
    names: &Names<'_, 'b, 'd>,
) -> Result<Result<Converters, (Misfit<'b, 'd>, Pos)>, AllocError>
    requires { AreNames names.now }
    ensures { IfOk result (λ found. IsScanned (seen names.now.declarations.now) found) }
{
    let mut counts = Counts::new();
    let mut found = Converters::new(alloc);
    for given in names.declarations.defs() {
        if let Some(misfit) = misfit_of(alloc, names, counts, &mut found, given)? {
            return Ok(Err((misfit, place_of(given))));
        }
        counts = counts.after(given);
    }
    Ok(Ok(found))
}

/// Looks for declarations, external constructors, extractors, converters and heads that break a row of the typing
/// table: gives the error of the first definition that does, by the lowest row that it breaks (`specs/TermFault.antt`);
/// or else the converters. The only other error is want of memory.
pub fn check_terms<'k, 'b, 'd>(
    alloc: Global,
    declarations: &'k Declarations<'b, 'd>,
    before: &'k Before<'b>,
    terms: &'k Terms<'b, 'd>,
) -> Result<Result<Converters, Error>, OutOfMemory>
    requires before { IsBefore (seen declarations.now) before.now }
    requires terms { AreTerms (seen declarations.now) terms.now }
    ensures { IfOk result (λ found. AreChecked (seen declarations.now) found) }
{
    let names = Names {
        declarations,
        before,
        terms,
    };
    match first_misfit(alloc, &names)? {
        Ok(found) => Ok(Ok(found)),
        Err((misfit, pos)) => Ok(Err(type_error(misfit.row(), pos, misfit.words(alloc)?))),
    }
}
