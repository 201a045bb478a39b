//! Patterns copied.

ghost use Rattle.std.specs.Prelude.{◌≡◌, IfOk, map, option_map, option_and_then, slice_get};
ghost use Rattle.isle_core.specs.RuleViews.{pattern as elaborated};

use isle_core::{Boxed, List, Pattern};
use std::alloc::{AllocError, Global};

/// A copy of a pattern. The only error is want of memory.
#[cycle(copying)]
#[tactic(auto, using(isle_core::proofs::SeesRules::sees))]
pub fn copied(alloc: Global, p: &Pattern) -> Result<Pattern, AllocError>
    ensures { IfOk result (λ q. elaborated q ≡ elaborated p.now) }
{
    match p {
        Pattern::BindPattern(ty, var, inner) => {
            Ok(Pattern::BindPattern(*ty, *var, Boxed::new(alloc, copied(alloc, inner.get())?)?))
        }
        Pattern::Var(ty, var) => Ok(Pattern::Var(*ty, *var)),
        Pattern::ConstBool(b) => Ok(Pattern::ConstBool(*b)),
        Pattern::ConstInt(ty, n) => Ok(Pattern::ConstInt(*ty, *n)),
        Pattern::ConstPrim(ty, name) => Ok(Pattern::ConstPrim(*ty, *name)),
        Pattern::Term(ty, term, parts) => {
            Ok(Pattern::Term(*ty, *term, List::new(all_copied(alloc, parts.as_slice())?)))
        }
        Pattern::Wildcard(ty) => Ok(Pattern::Wildcard(*ty)),
        Pattern::And(ty, parts) => {
            Ok(Pattern::And(*ty, List::new(all_copied(alloc, parts.as_slice())?)))
        }
    }
}

// Patterns copied, in order.
#[cycle(copying)]
fn all_copied(alloc: Global, parts: &[Pattern]) -> Result<Vec<Pattern>, AllocError>
    ensures { IfOk result (λ qs. map elaborated qs.items ≡ map elaborated parts.now) }
{
    let mut found = Vec::with_capacity(alloc, parts.len())?;
    for p in parts {
        found.push(copied(alloc, p)?)?;
    }
    Ok(found)
}

/// A copy of the pattern at a place, where there is one. The only error is want of memory.
pub fn copied_at(
    alloc: Global,
    patterns: &[Option<Pattern>],
    place: usize,
) -> Result<Option<Pattern>, AllocError>
    ensures { IfOk result (λ found.
        option_map elaborated found
        ≡ option_and_then (λ p. p) (slice_get (map (option_map elaborated) patterns.now) place)) }
{
    match patterns.get(place) {
        Some(Some(p)) => Ok(Some(copied(alloc, p)?)),
        Some(None) | None => Ok(None),
    }
}
