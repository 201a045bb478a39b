//! How many levels of templates are put in where a pattern is used.

use crate::known::{Known, kept_of};
use isle_core::{Pattern, TermId};

// Of a term, its template with those that are put in there.
fn levels_at(term: TermId, known: Known<'_>) -> usize {
    match kept_of(known, term) {
        None => 0,
        Some(kept) => kept.levels.saturating_add(1),
    }
}

/// Returns the most levels of templates at a term of a pattern.
#[cycle(counting_levels)]
pub fn levels(p: &Pattern, known: Known<'_>) -> usize {
    match p {
        Pattern::BindPattern(_, _, inner) => levels(inner.get(), known),
        Pattern::Var(_, _) => 0,
        Pattern::ConstBool(_) => 0,
        Pattern::ConstInt(_, _) => 0,
        Pattern::ConstPrim(_, _) => 0,
        Pattern::Term(_, term, parts) => {
            let inside = most_levels(parts.as_slice(), known);
            levels_at(*term, known).max(inside)
        }
        Pattern::Wildcard(_) => 0,
        Pattern::And(_, parts) => most_levels(parts.as_slice(), known),
    }
}

// The most of its parts.
#[cycle(counting_levels)]
fn most_levels(parts: &[Pattern], known: Known<'_>) -> usize {
    let mut most = 0;
    for p in parts {
        most = levels(p, known).max(most);
    }
    most
}
