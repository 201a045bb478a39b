//! Which terms use which, as a graph of the places of their rule sets.

ghost use Rattle.std.specs.Prelude.{◌≡◌, ◌<◌, ℕ, length, option_to_list, slice_get, slice_index_or};
ghost use Rattle.std.specs.Prelude.{None as NoneOf, IfOk};
ghost use Rattle.std.specs.List.{AllByRecursion};
ghost use Rattle.isle_checks.specs.ClosedWalks.{is_declared, used, used_by, uses_of};
ghost use Rattle.isle_checks.specs.Graph.{ArePlaces, IsGraph, ids_of, places_of};

use isle_core::{Binding, List, RuleSet, Term, TermId, TermKind};
use std::alloc::{AllocError, Global};

// Whether a term is there, and no variant and no struct makes it.
fn is_declared(terms: &[Term], id: TermId) -> bool
    ensures { result ≡ is_declared (slice_get terms.now id.0) }
{
    match terms.get(id.index()) {
        Some(
            Term {
                kind: TermKind::Decl { .. },
                ..
            },
        ) => true,
        Some(
            Term {
                kind: TermKind::Variant { .. } | TermKind::Struct { .. },
                ..
            },
        )
        | None => false,
    }
}

// The term, if it is declared.
fn declared(terms: &[Term], id: TermId) -> Option<TermId>
    ensures { option_to_list result ≡ used terms.now id }
{
    if is_declared(terms, id) {
        Some(id)
    } else {
        None
    }
}

// The term that a binding uses, as a constructor or as an extractor.
fn used_by(terms: &[Term], binding: &Binding) -> Option<TermId>
    ensures { option_to_list result ≡ used_by terms.now binding.now }
{
    match binding {
        Binding::Constructor { term, .. } | Binding::Extractor { term, .. } => {
            declared(terms, *term)
        }
        _ => None,
    }
}

// What a table has at a term.
fn place_in(table: &[Option<usize>], id: TermId) -> Option<usize>
    ensures { result ≡ slice_index_or table.now id.0 NoneOf }
{
    match table.get(id.index()) {
        Some(place) => *place,
        None => None,
    }
}

// The places of the rule sets, by their terms.
fn places(
    alloc: Global,
    count: usize,
    sets: &[(TermId, RuleSet)],
) -> Result<Vec<Option<usize>>, AllocError>
    requires { AllByRecursion (λ (id : ℕ). id < count) (ids_of sets.now) }
    ensures { IfOk result (λ table. ArePlaces count sets.now table.items) }
{
    let mut table: Vec<Option<usize>> = vec![in alloc; None; count]?;
    for (place, (id, _)) in sets.iter().enumerate() {
        table[id.index()] = Some(place);
    }
    Ok(table)
}

// The places of the rule sets of the terms that bindings use.
fn places_of(
    alloc: Global,
    terms: &[Term],
    table: &[Option<usize>],
    bindings: &[Binding],
) -> Result<Vec<usize>, AllocError>
    ensures { IfOk result (λ places.
        places.items ≡ places_of table.now (uses_of terms.now bindings.now)) }
{
    let mut places = Vec::new(alloc);
    for binding in bindings {
        let Some(id) = used_by(terms, binding) else {
            continue;
        };
        if let Some(place) = place_in(table, id) {
            places.push(place)?;
        }
    }
    Ok(places)
}

/// Makes the graph of rule sets, each of a term: each leads to the places of those of the terms that it uses
/// (`specs/Graph.antt`). The only error is want of memory.
pub fn graph(
    alloc: Global,
    terms: &[Term],
    sets: &[(TermId, RuleSet)],
) -> Result<Vec<List<usize>>, AllocError>
    requires { AllByRecursion (λ (id : ℕ). id < length terms.now) (ids_of sets.now) }
    ensures { IfOk result (λ graph. IsGraph terms.now sets.now graph.items) }
{
    let table = places(alloc, terms.len(), sets)?;
    let mut graph = Vec::with_capacity(alloc, sets.len())?;
    for (_, set) in sets {
        let found = places_of(alloc, terms, table.as_slice(), set.bindings.as_slice())?;
        graph.push(List::new(found))?;
    }
    Ok(graph)
}
