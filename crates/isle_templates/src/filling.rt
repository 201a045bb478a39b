//! Templates with patterns in place of their parameters, and with those that they use put in.

ghost use Rattle.std.specs.Prelude.{◌≡◌, List, Option, IfOk, map, take};
ghost use Rattle.isle_core.specs.Pattern as pattern;
ghost use Rattle.isle_core.specs.Pattern.{APattern, NoPattern};
ghost use Rattle.isle_core.specs.Pattern.{Pattern as Tree};
ghost use Rattle.isle_core.specs.RuleViews.{pattern as elaborated};
ghost use Rattle.isle_templates.specs.PutIn.{put_in, with_rest};
ghost use Rattle.isle_templates.specs.Standing.{StandFor};
ghost use Rattle.isle_templates.specs.Substituted.{argument, expanded, substituted, template_of};

use crate::copies::copied;
use crate::known::{Known, kept_of, lower};
use isle_core::{List, Pattern, TermId, TypeId, VarId};
use std::alloc::{AllocError, Global};

// A copy of what stands for a parameter, whose number is its place; if nothing does, the parameter itself.
#[tactic(auto, using(isle_core::proofs::SeesRules::sees))]
fn argument(
    alloc: Global,
    args: &[Pattern],
    ty: TypeId,
    param: VarId,
) -> Result<Pattern, AllocError>
    ensures { IfOk result (λ p. elaborated p ≡ argument (map elaborated args.now) ty param) }
{
    match args.get(param.index()) {
        Some(given) => copied(alloc, given),
        None => Ok(Pattern::Var(ty, param)),
    }
}

// Two patterns that match one value.
#[tactic(auto, using(isle_core::proofs::SeesRules::sees))]
fn both(alloc: Global, ty: TypeId, first: Pattern, second: Pattern) -> Result<Pattern, AllocError>
    ensures { IfOk result (λ p.
        elaborated p
        ≡ pattern.And ty (APattern (elaborated first) (APattern (elaborated second) NoPattern))) }
{
    let mut parts = Vec::with_capacity(alloc, 2)?;
    parts.push(first)?;
    parts.push(second)?;
    Ok(Pattern::And(ty, List::new(parts)))
}

// The first of these, up to so many.
fn first(args: &[Pattern], most: usize) -> &[Pattern]
    ensures { result.now ≡ take most args.now }
{
    if most < args.len() {
        &args[..most]
    } else {
        args
    }
}

// Copies of patterns after these, from their number on.
fn with_rest(
    alloc: Global,
    parts: Vec<Pattern>,
    args: &[Pattern],
) -> Result<Vec<Pattern>, AllocError>
    ensures { IfOk result (λ all.
        map elaborated all.items
        ≡ with_rest (map elaborated parts.items) (map elaborated args.now)) }
{
    let mut all = parts;
    for place in all.len()..args.len() {
        all.push(copied(alloc, &args[place])?)?;
    }
    Ok(all)
}

/// A template with copies of patterns in place of its parameters, whose numbers are their places, and with the
/// templates that it uses put in (`specs/Substituted.antt`). The only error is want of memory.
#[cycle(filling)]
#[tactic(auto, using(isle_core::proofs::SeesRules::sees))]
pub fn filled(
    alloc: Global,
    template: &Pattern,
    args: &[Pattern],
    known: Known<'_>,
) -> Result<Pattern, AllocError>
    ensures { IfOk result (λ p.
        (whole : List (Option Tree)) → StandFor whole known.entry.table.now known.entry.below
        → elaborated p
        ≡ substituted (map elaborated args.now) (expanded whole (elaborated template.now))) }
{
    match template {
        Pattern::BindPattern(ty, param, inner) => {
            let first = argument(alloc, args, *ty, *param)?;
            let second = filled(alloc, inner.get(), args, known)?;
            both(alloc, *ty, first, second)
        }
        Pattern::Var(ty, param) => argument(alloc, args, *ty, *param),
        Pattern::ConstBool(b) => Ok(Pattern::ConstBool(*b)),
        Pattern::ConstInt(ty, n) => Ok(Pattern::ConstInt(*ty, *n)),
        Pattern::ConstPrim(ty, name) => Ok(Pattern::ConstPrim(*ty, *name)),
        Pattern::Term(ty, term, parts) => {
            let parts = each_filled(alloc, parts.as_slice(), args, known)?;
            term_filled(alloc, parts, args, *ty, *term, known)
        }
        Pattern::Wildcard(ty) => Ok(Pattern::Wildcard(*ty)),
        Pattern::And(ty, parts) => {
            let parts = each_filled(alloc, parts.as_slice(), args, known)?;
            Ok(Pattern::And(*ty, List::new(parts)))
        }
    }
}

// So of its parts.
#[cycle(filling)]
fn each_filled(
    alloc: Global,
    parts: &[Pattern],
    args: &[Pattern],
    known: Known<'_>,
) -> Result<Vec<Pattern>, AllocError>
    ensures { IfOk result (λ ps.
        (whole : List (Option Tree)) → StandFor whole known.entry.table.now known.entry.below
        → map elaborated ps.items
        ≡ map (λ p. substituted (map elaborated args.now) (expanded whole p))
        (map elaborated parts.now)) }
{
    let mut found = Vec::with_capacity(alloc, parts.len())?;
    for p in parts {
        found.push(filled(alloc, p, args, known)?)?;
    }
    Ok(found)
}

// A term on these parts, or its template with them, inside a template with patterns in place of its parameters.
#[cycle(filling)]
#[tactic(auto, using(isle_core::proofs::SeesRules::sees))]
fn term_filled(
    alloc: Global,
    parts: Vec<Pattern>,
    args: &[Pattern],
    ty: TypeId,
    term: TermId,
    known: Known<'_>,
) -> Result<Pattern, AllocError>
    ensures { IfOk result (λ p.
        (whole : List (Option Tree)) → StandFor whole known.entry.table.now known.entry.below
        → elaborated p
        ≡ put_in (template_of whole term) ty term (map elaborated parts.items)
        (map elaborated args.now)) }
{
    match kept_of(known, term) {
        None => Ok(Pattern::Term(ty, term, List::new(parts))),
        Some(kept) => {
            let all = with_rest(alloc, parts, first(args, kept.times.len()))?;
            filled(
                alloc,
                &kept.pattern,
                all.as_slice(),
                lower(known, kept.uses),
            )
        }
    }
}
