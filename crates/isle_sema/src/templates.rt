//! The templates of internal extractors, with types in them, and the first that breaks a row of the typing table.

ghost use Rattle.std.specs.Prelude.{◌≡◌, Option, Some, true, IfOk, is_some, map, option_map, option_and_then};
ghost use Rattle.std.specs.Prelude.{slice_get};
ghost use Rattle.isle_ast.specs.Views.{pattern, defs as seen_defs};
ghost use Rattle.isle_core.specs.RuleViews.{pattern as elaborated};
ghost use Rattle.isle_declarations.specs.Collected.{extractor as seen, AreExtractors};
ghost use Rattle.isle_declarations.specs.Signatures.{Signature, ByTemplate, extractors};
ghost use Rattle.isle_declarations.specs.Symbols.{index_of, symbols};
ghost use Rattle.isle_declarations.specs.Terms.{terms as all_terms};
ghost use Rattle.isle_declarations.specs.TermViews.{term_def};
ghost use Rattle.isle_terms.specs.Whole.{Whole, arg_types, whole};
ghost use Rattle.isle_terms.specs.Scope.{no_variables};
ghost use Rattle.isle_walks.specs.Walks.{AreClosedTold};
ghost use Rattle.isle_sema.specs.Known.{MayBeCalled};
ghost use Rattle.isle_sema.specs.Templates.{params_met, template_for, templates};
ghost use Rattle.isle_sema.specs.TemplatesChecked.{tree_of, IsTried, AreTreesAt, AreTried, AreTaken};
ghost use Rattle.isle_sema.specs.TemplatesChecked.{AreTemplatesChecked};
ghost use Rattle.isle_sema.specs.TemplateUses.{template_uses};

use crate::elaborated_patterns::pattern_at;
use crate::fault::Fault;
use crate::judging::Judging;
use crate::known::{Called, Known, argument_types, result_type};
use crate::rows::template_row;
use crate::template_uses::{reaches_itself, used_templates};
use isle_ast::AstPattern;
use isle_core::{List, Name, Pattern};
use isle_declarations::{Extracting, ExtractorDef, TermDef};
use isle_templates::{Templates, copied_at, multi_extractors, whole_templates};
use isle_terms::{Breach, Side, Variables, misses_variable, template_culprit};
use isle_walks::closed_walks;
use std::alloc::{AllocError, Global};

// The variables of a template: its parameters, each at the type of its argument.
fn parameters<'b, 'd>(
    alloc: Global,
    callee: &Option<Called>,
    params: &'b [Name<'d>],
) -> Result<Variables<'b>, AllocError>
    ensures { (w : Whole) (s : Option Signature) → MayBeCalled w s callee.now
        → IfOk result (λ vars. vars ≡ params_met no_variables params.now (arg_types w s)) }
{
    let mut vars = Variables::new(alloc);
    let types = argument_types(callee);
    for (place, param) in params.iter().enumerate() {
        vars.meet(param, types.get(place).copied())?;
    }
    Ok(vars)
}

// The tree of an extractor's template, if it has one; or the row that it breaks.
fn template_of<'b, 'd>(
    alloc: Global,
    known: &Known,
    closed: &[bool],
    given: &ExtractorDef<'b, 'd>,
) -> Result<Result<Option<Pattern>, Breach<'b, 'd>>, AllocError>
    requires number { index_of (whole known.now).types.syms given.now.term.now
        ≡ Some given.now.number }
    requires closed { AreClosedTold (template_uses (whole known.now)) closed.now }
    ensures { IfOk result (λ found. IsTried (whole known.now) (seen given.now) found) }
{
    match given.by {
        Extracting::Function { .. } => Ok(Ok(None)),
        Extracting::Template { params, template } => {
            let callee = known.at(given.number);
            let mut vars = parameters(alloc, &callee, params)?;
            let mut judged = Judging::new(&[], Side::Template);
            let expected = result_type(&callee);
            let tree = pattern_at(alloc, known, &mut vars, &mut judged, expected, template)?;
            let misses = misses_variable(alloc, params, template)?;
            match template_row(reaches_itself(&callee, closed), misses, &judged.rows) {
                Some(row) => {
                    let culprit = template_culprit(alloc, row, &judged.first, params, template)?;
                    Ok(Err(Breach { row, culprit }))
                }
                None => Ok(Ok(tree)),
            }
        }
    }
}

// Those of extractors, in order; or the first that breaks a row.
fn templates_of<'b, 'd>(
    alloc: Global,
    known: &Known<'_, 'b, 'd>,
    closed: &[bool],
    given: &[ExtractorDef<'b, 'd>],
) -> Result<Result<Vec<Option<Pattern>>, Fault<'b, 'd>>, AllocError>
    requires extractors { AreExtractors (seen_defs known.now) given.now }
    requires closed { AreClosedTold (template_uses (whole known.now)) closed.now }
    ensures { IfOk result (λ found.
        AreTried (whole known.now) (extractors (seen_defs known.now)) found) }
{
    let mut trees = Vec::with_capacity(alloc, given.len())?;
    for extractor in given {
        match template_of(alloc, known, closed, extractor)? {
            Ok(tree) => trees.push(tree)?,
            Err(breach) => {
                return Ok(Err(Fault {
                    row: breach.row,
                    pos: extractor.pos,
                    term: extractor.term,
                    culprit: breach.culprit,
                }));
            }
        }
    }
    Ok(Ok(trees))
}

// The template of a term, by those of the extractors.
fn template_for(
    alloc: Global,
    known: &Known,
    trees: &[Option<Pattern>],
    term: &TermDef,
) -> Result<Option<Pattern>, AllocError>
    requires trees { map (option_map elaborated) trees.now
        ≡ map (tree_of (whole known.now)) (extractors (seen_defs known.now)) }
    requires named { is_some (index_of (symbols (seen_defs known.now)) term.now.term.now) ≡ true }
    ensures { IfOk result (λ found.
        option_map elaborated found ≡ template_for (whole known.now) (term_def term.now)) }
{
    let Some(number) = known.declarations.number(term.term) else {
        return Ok(None);
    };
    let Some(place) = known.declarations.extracting(number) else {
        return Ok(None);
    };
    copied_at(alloc, trees, place)
}

// For each term its template, by those of the extractors.
fn by_terms(
    alloc: Global,
    known: &Known,
    trees: &[Option<Pattern>],
    terms: &[TermDef],
) -> Result<Vec<Option<Pattern>>, AllocError>
    requires trees { map (option_map elaborated) trees.now
        ≡ map (tree_of (whole known.now)) (extractors (seen_defs known.now)) }
    requires terms { map term_def terms.now ≡ all_terms (seen_defs known.now) }
    ensures { IfOk result (λ found.
        map (option_map elaborated) found.items ≡ templates (whole known.now)) }
{
    let mut found = Vec::with_capacity(alloc, terms.len())?;
    for term in terms {
        found.push(template_for(alloc, known, trees, term)?)?;
    }
    Ok(found)
}

// Of each term whether its declaration says `multi`.
fn declared_multis(alloc: Global, terms: &[TermDef]) -> Result<Vec<bool>, AllocError>
    ensures { IfOk result (λ flags.
        flags.items ≡ map (λ (s : Signature). s.multi) (map term_def terms.now)) }
{
    let mut flags = Vec::with_capacity(alloc, terms.len())?;
    for term in terms {
        flags.push(term.multi)?;
    }
    Ok(flags)
}

/// What stands for terms in patterns: their templates, with those that they use replaced, and of each whether it is
/// `multi` there.
#[derive(Drop)]
pub struct Extractors {
    pub templates: Templates,
    pub multis: Vec<bool>,
}

// What stands for all terms, by the trees of extractors and by which templates use which.
fn extractors_of(
    alloc: Global,
    known: &Known,
    graph: &[List<usize>],
    trees: &[Option<Pattern>],
) -> Result<Extractors, AllocError>
    requires graph { graph.now ≡ template_uses (whole known.now) }
    requires trees { AreTreesAt (whole known.now) (extractors (seen_defs known.now)) trees.now }
    ensures { IfOk result (λ found. AreTaken (whole known.now) found) }
{
    let terms = known.terms.terms.as_slice();
    let written = by_terms(alloc, known, trees, terms)?;
    let Some(templates) = whole_templates(alloc, written.as_slice())? else {
        unreachable!();
    };
    let flags = declared_multis(alloc, terms)?;
    let multis = multi_extractors(alloc, graph, written.as_slice(), flags)?;
    Ok(Extractors { templates, multis })
}

/// Looks for extractors that break a row of the typing table: reports the first that does, by the lowest row that it
/// breaks (`specs/Fault.antt`); or else returns what stands for all terms. The only error is want of memory.
pub fn check_templates<'b, 'd>(
    alloc: Global,
    known: &Known<'_, 'b, 'd>,
) -> Result<Result<Extractors, Fault<'b, 'd>>, AllocError>
    ensures { IfOk result (λ found. AreTemplatesChecked (whole known.now) found) }
{
    let graph = used_templates(alloc, known)?;
    let closed = closed_walks(alloc, graph.as_slice())?;
    let given = known.declarations.extractors();
    match templates_of(alloc, known, closed.as_slice(), given)? {
        Ok(trees) => Ok(Ok(extractors_of(alloc, known, graph.as_slice(), trees.as_slice())?)),
        Err(fault) => Ok(Err(fault)),
    }
}
