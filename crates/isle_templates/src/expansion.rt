//! Patterns with templates in place of the terms that have them. No more nodes are made than a rule may have: they are
//! counted before a template is copied.

ghost use Rattle.std.specs.Prelude.{◌≤◌, List, Option, IfOk, map};
ghost use Rattle.isle_core.specs.Pattern as pattern;
ghost use Rattle.isle_core.specs.Pattern.{Pattern as Tree};
ghost use Rattle.isle_core.specs.RuleViews.{pattern as elaborated, patterns_of};
ghost use Rattle.isle_templates.specs.Arguments.{needed_one};
ghost use Rattle.isle_templates.specs.Counted.{IsCounted, AreCounted};
ghost use Rattle.isle_templates.specs.Standing.{IsKept, StandFor};
ghost use Rattle.isle_templates.specs.Substituted.{expanded, opened, substituted, template_of};

use crate::counted::{Counted, MOST_NODES, Parts};
use crate::counting::{and_of, bound, leaf, term_of};
use crate::filling::filled;
use crate::known::{Known, kept_of, lower};
use crate::template::Kept;
use isle_core::{Pattern, TermId, TypeId};
use std::alloc::{AllocError, Global};

/// A pattern with templates in place of terms, and its nodes; `None` if they are more than a rule may have. The only
/// error is want of memory.
#[cycle(expanding)]
#[tactic(auto, using(isle_core::proofs::SeesRules::sees, crate::proofs::ExpansionSteps::parts_each))]
pub fn expanded(alloc: Global, p: &Pattern, known: Known<'_>) -> Result<Option<Counted>, AllocError>
    ensures { IfOk result (λ found.
        (whole : List (Option Tree)) → StandFor whole known.entry.table.now known.entry.below
        → IsCounted (expanded whole (elaborated p.now)) found) }
{
    match p {
        Pattern::BindPattern(ty, variable, inner) => {
            let inner = expanded(alloc, inner.get(), known)?;
            bound(alloc, *ty, *variable, inner)
        }
        Pattern::Var(ty, variable) => Ok(leaf(Pattern::Var(*ty, *variable))),
        Pattern::ConstBool(b) => Ok(leaf(Pattern::ConstBool(*b))),
        Pattern::ConstInt(ty, n) => Ok(leaf(Pattern::ConstInt(*ty, *n))),
        Pattern::ConstPrim(ty, name) => Ok(leaf(Pattern::ConstPrim(*ty, *name))),
        Pattern::Term(ty, term, parts) => {
            term_expanded(alloc, parts.as_slice(), *ty, *term, known)
        }
        Pattern::Wildcard(ty) => Ok(leaf(Pattern::Wildcard(*ty))),
        Pattern::And(ty, parts) => {
            let parts = all_expanded(alloc, parts.as_slice(), 1, known)?;
            Ok(and_of(*ty, parts))
        }
    }
}

// A term on these parts, or its template with them.
#[cycle(expanding)]
fn term_expanded(
    alloc: Global,
    parts: &[Pattern],
    ty: TypeId,
    term: TermId,
    known: Known<'_>,
) -> Result<Option<Counted>, AllocError>
    ensures { IfOk result (λ found.
        (whole : List (Option Tree)) → StandFor whole known.entry.table.now known.entry.below
        → IsCounted (opened (template_of whole term) ty term
        (map (expanded whole) (map elaborated parts.now))) found) }
{
    match kept_of(known, term) {
        None => term_on(alloc, parts, ty, term, known),
        Some(kept) => opened(alloc, parts, kept, known),
    }
}

// A term on these parts.
#[cycle(expanding)]
fn term_on(
    alloc: Global,
    parts: &[Pattern],
    ty: TypeId,
    term: TermId,
    known: Known<'_>,
) -> Result<Option<Counted>, AllocError>
    ensures { IfOk result (λ found.
        (whole : List (Option Tree)) → StandFor whole known.entry.table.now known.entry.below
        → IsCounted (pattern.Term ty term
        (patterns_of (map (expanded whole) (map elaborated parts.now)))) found) }
{
    let parts = all_expanded(alloc, parts, 1, known)?;
    Ok(term_of(ty, term, parts))
}

/// Patterns with templates in place of terms, in order, and how many nodes there are with so many others. The only
/// error is want of memory.
#[cycle(expanding)]
pub fn all_expanded(
    alloc: Global,
    parts: &[Pattern],
    base: usize,
    known: Known<'_>,
) -> Result<Option<Parts>, AllocError>
    requires { base ≤ 4096 }
    ensures { IfOk result (λ found.
        (whole : List (Option Tree)) → StandFor whole known.entry.table.now known.entry.below
        → AreCounted base (map (expanded whole) (map elaborated parts.now)) found) }
{
    let mut found = Parts::new(alloc, parts.len(), base)?;
    for p in parts {
        let part = expanded(alloc, p, known)?;
        if !found.push(part)? {
            return Ok(None);
        }
    }
    Ok(Some(found))
}

// What stands for a parameter; where the parameter stands nowhere, `_` will do.
#[cycle(expanding)]
#[tactic(auto, using(isle_core::proofs::SeesRules::sees))]
fn argument(
    alloc: Global,
    p: &Pattern,
    times: usize,
    known: Known<'_>,
) -> Result<Option<Counted>, AllocError>
    ensures { IfOk result (λ found.
        (whole : List (Option Tree)) → StandFor whole known.entry.table.now known.entry.below
        → IsCounted (needed_one times (expanded whole (elaborated p.now))) found) }
{
    if times == 0 {
        return Ok(leaf(Pattern::Wildcard(TypeId(0))));
    }
    expanded(alloc, p, known)
}

// A template with patterns in place of its parameters.
#[cycle(expanding)]
fn opened(
    alloc: Global,
    args: &[Pattern],
    kept: &Kept,
    known: Known<'_>,
) -> Result<Option<Counted>, AllocError>
    ensures { IfOk result (λ found.
        (whole inner : List (Option Tree)) (template : Tree)
        → StandFor whole known.entry.table.now known.entry.below
        → StandFor inner known.entry.table.now kept.now.uses → IsKept inner template kept.now
        → IsCounted (substituted (map (expanded whole) (map elaborated args.now)) template) found) }
{
    if kept.nodes > MOST_NODES {
        return Ok(None);
    }
    let mut found = Parts::new(alloc, args.len(), kept.nodes)?;
    for (parameter, arg) in args.iter().enumerate() {
        let times = kept.times(parameter);
        let part = argument(alloc, arg, times, known)?;
        if !found.push_argument(times, part)? {
            return Ok(None);
        }
    }
    let parts = found.patterns.as_slice();
    let pattern = filled(alloc, &kept.pattern, parts, lower(known, kept.uses))?;
    Ok(Some(Counted {
        pattern,
        nodes: found.nodes,
    }))
}
