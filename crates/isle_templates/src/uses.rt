//! Which templates use which.

ghost use Rattle.std.specs.Prelude.{◌≡◌, ◌++◌, OnOk, IfOk, map, option_map};
ghost use Rattle.isle_core.specs.RuleViews.{pattern as elaborated, patterns_of};
ghost use Rattle.isle_templates.specs.Substituted.{template_of};
ghost use Rattle.isle_templates.specs.Uses.{used_one, used_in, all_used_in, used_by, uses};
ghost use Rattle.isle_templates.specs.Written.{written_of};

use isle_core::{List, Pattern, TermId};
use std::alloc::{AllocError, Global};

// Notes a term that has a template.
fn note_term(
    found: &mut Vec<usize>,
    term: TermId,
    written: &[Option<Pattern>],
) -> Result<(), AllocError>
    ensures { OnOk result
        (found.new.items
        ≡ found.old.items ++ used_one (template_of (written_of written.now) term) term) }
{
    match written.get(term.index()) {
        None => Ok(()),
        Some(None) => Ok(()),
        Some(Some(_)) => {
            found.push(term.index())?;
            Ok(())
        }
    }
}

// Notes the terms of a pattern that have templates.
#[cycle(noting)]
#[tactic(auto, using(isle_core::proofs::SeesRules::sees))]
fn note(p: &Pattern, written: &[Option<Pattern>], found: &mut Vec<usize>) -> Result<(), AllocError>
    ensures { OnOk result
        (found.new.items ≡ found.old.items ++ used_in (written_of written.now) (elaborated p.now)) }
{
    match p {
        Pattern::BindPattern(_, _, inner) => note(inner.get(), written, found),
        Pattern::Var(_, _) => Ok(()),
        Pattern::ConstBool(_) => Ok(()),
        Pattern::ConstInt(_, _) => Ok(()),
        Pattern::ConstPrim(_, _) => Ok(()),
        Pattern::Term(_, term, parts) => {
            note_term(found, *term, written)?;
            note_each(parts.as_slice(), written, found)
        }
        Pattern::Wildcard(_) => Ok(()),
        Pattern::And(_, parts) => note_each(parts.as_slice(), written, found),
    }
}

// Those of patterns, in order.
#[cycle(noting)]
fn note_each(
    parts: &[Pattern],
    written: &[Option<Pattern>],
    found: &mut Vec<usize>,
) -> Result<(), AllocError>
    ensures { OnOk result
        (found.new.items
        ≡ found.old.items
        ++ all_used_in (written_of written.now) (patterns_of (map elaborated parts.now))) }
{
    for p in parts {
        note(p, written, found)?;
    }
    Ok(())
}

// The terms of a template, if there is one, that have templates.
fn used_by(
    alloc: Global,
    template: &Option<Pattern>,
    written: &[Option<Pattern>],
) -> Result<Vec<usize>, AllocError>
    ensures { IfOk result (λ found.
        found.items ≡ used_by (written_of written.now) (option_map elaborated template.now)) }
{
    let mut found = Vec::new(alloc);
    if let Some(p) = template {
        note(p, written, &mut found)?;
    }
    Ok(found)
}

/// For each term those that its template uses. The only error is want of memory.
pub fn uses(alloc: Global, written: &[Option<Pattern>]) -> Result<Vec<List<usize>>, AllocError>
    ensures { IfOk result (λ graph. graph.items ≡ uses (written_of written.now)) }
{
    let mut graph = Vec::with_capacity(alloc, written.len())?;
    for template in written {
        graph.push(List::new(used_by(alloc, template, written)?))?;
    }
    Ok(graph)
}
