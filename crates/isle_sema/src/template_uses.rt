//! Which templates a template uses, by its pattern as it is written, and which terms reach themselves through them.

ghost use Rattle.std.specs.Prelude.{◌≡◌, ◌++◌, Option, true, is_some, IfOk, OnOk, map};
ghost use Rattle.isle_ast.specs.Views.{pattern, patterns_of, defs as seen};
ghost use Rattle.isle_declarations.specs.Signatures.{Signature, ExtractorDef, extractors, extractor_named};
ghost use Rattle.isle_declarations.specs.Symbols.{index_of, symbols};
ghost use Rattle.isle_declarations.specs.TermViews.{term_def};
ghost use Rattle.isle_terms.specs.Whole.{Whole, termed, whole};
ghost use Rattle.isle_sema.specs.Known.{MayBeCalled};
ghost use Rattle.isle_sema.specs.TemplateRows.{is_on_walk};
ghost use Rattle.isle_sema.specs.TemplateUses.{templated, uses_in, all_uses_in, used_of, template_uses};
ghost use Rattle.isle_walks.specs.Walks.{AreClosedTold};

use crate::known::{Called, Known, argument_types, result_type};
use isle_ast::AstPattern;
use isle_core::{List, TypeId};
use isle_declarations::{Extracting, TermDef};
use std::alloc::{AllocError, Global};

// Notes a term, if it is there and has a template.
fn note_called(callee: &Option<Called>, found: &mut Vec<usize>) -> Result<(), AllocError>
    ensures { (w : Whole) (s : Option Signature) → MayBeCalled w s callee.now
        → OnOk result (found.new.items ≡ found.old.items ++ templated w s) }
{
    let Some(callee) = callee else {
        return Ok(());
    };
    if !callee.templated {
        return Ok(());
    }
    found.push(callee.term.index())?;
    Ok(())
}

// Notes the terms with templates that a pattern uses where this type is expected.
#[cycle(noting)]
#[tactic(auto, using(isle_ast::proofs::Sees::pattern_sees))]
fn note(
    known: &Known,
    expected: Option<TypeId>,
    p: &AstPattern,
    found: &mut Vec<usize>,
) -> Result<(), AllocError>
    ensures { OnOk result
        (found.new.items ≡ found.old.items ++ uses_in (whole known.now) expected (pattern p.now)) }
{
    match p {
        AstPattern::Int(_) => Ok(()),
        AstPattern::Bool(_) => Ok(()),
        AstPattern::Var(_) => Ok(()),
        AstPattern::Wildcard => Ok(()),
        AstPattern::Const(_) => Ok(()),
        AstPattern::Term(name, parts) => {
            let callee = known.called(name);
            let converter = known.conversion(result_type(&callee), expected);
            note_called(&converter, found)?;
            note_called(&callee, found)?;
            note_each(known, argument_types(&callee), parts.as_slice(), found)
        }
        AstPattern::Bind(_, inner) => note(known, expected, inner.get(), found),
        AstPattern::And(parts) => {
            for part in parts.as_slice() {
                note(known, expected, part, found)?;
            }
            Ok(())
        }
    }
}

// Those of patterns where these types are expected, beyond them none.
#[cycle(noting)]
fn note_each(
    known: &Known,
    types: &[TypeId],
    parts: &[AstPattern],
    found: &mut Vec<usize>,
) -> Result<(), AllocError>
    ensures { OnOk result
        (found.new.items
        ≡ found.old.items
        ++ all_uses_in (whole known.now) (map Some types.now)
        (patterns_of (map pattern parts.now))) }
{
    for (index, part) in parts.iter().enumerate() {
        note(known, types.get(index).copied(), part, found)?;
    }
    Ok(())
}

// The terms with templates that a term's template uses, if it has one.
fn used_of(alloc: Global, known: &Known, term: &TermDef) -> Result<Vec<usize>, AllocError>
    requires { is_some (index_of (symbols (seen known.now)) term.now.term.now) ≡ true }
    ensures { IfOk result (λ found.
        found.items ≡ used_of (whole known.now) (term_def term.now)
        (extractor_named (extractors (seen known.now)) term.now.term.now)) }
{
    let mut found = Vec::new(alloc);
    let Some(number) = known.declarations.number(term.term) else {
        return Ok(found);
    };
    let Some(place) = known.declarations.extracting(number) else {
        return Ok(found);
    };
    let Some(extractor) = known.declarations.extractors().get(place) else {
        return Ok(found);
    };
    match extractor.by {
        Extracting::Function { .. } => Ok(found),
        Extracting::Template { template, .. } => {
            let callee = known.at(number);
            note(known, result_type(&callee), template, &mut found)?;
            Ok(found)
        }
    }
}

/// Tells of each term which terms with templates its template uses. The only error is want of memory.
pub fn used_templates(alloc: Global, known: &Known) -> Result<Vec<List<usize>>, AllocError>
    ensures { IfOk result (λ graph. graph.items ≡ template_uses (whole known.now)) }
{
    let mut graph = Vec::with_capacity(alloc, known.terms.terms.len())?;
    for term in known.terms.terms.as_slice() {
        graph.push(List::new(used_of(alloc, known, term)?))?;
    }
    Ok(graph)
}

/// Tells whether a term is among those that reach themselves.
pub fn reaches_itself(callee: &Option<Called>, closed: &[bool]) -> bool
    ensures { (w : Whole) (x : ExtractorDef) → MayBeCalled w (termed w x.term) callee.now
        → AreClosedTold (template_uses w) closed.now → result ≡ is_on_walk w x }
{
    let Some(callee) = callee else {
        return false;
    };
    match closed.get(callee.term.index()) {
        Some(found) => *found,
        None => false,
    }
}
