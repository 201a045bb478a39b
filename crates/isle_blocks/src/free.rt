//! Which bindings are read without an item that a loop chooses.

ghost use Rattle.std.specs.Prelude.{◌≡◌, IfOk, List as ListOf, map};
ghost use Rattle.isle_core.specs.Path.{Path, at, at_all, path_over, paths_of};
ghost use Rattle.isle_blocks.specs.Free as Free;

use isle_core::{Binding, BindingId};
use std::alloc::{AllocError, Global};

/// Whether the binding of this number is free, by the table of those before.
pub fn is_free_at(free: &[bool], binding: BindingId) -> bool
    ensures { (ps : ListOf Path) → free.now ≡ map Free.is_free ps
        → result ≡ Free.is_free (at ps binding) }
{
    match free.get(binding.index()) {
        Some(known) => *known,
        None => true,
    }
}

// Whether all of these are.
fn are_free_at(free: &[bool], bindings: &[BindingId]) -> bool
    ensures { (ps : ListOf Path) → free.now ≡ map Free.is_free ps
        → result ≡ Free.are_free (at_all ps bindings.now) }
{
    for binding in bindings {
        if !is_free_at(free, *binding) {
            return false;
        }
    }
    true
}

// Whether a binding is free, by the table of those before it.
fn is_free(free: &[bool], binding: &Binding) -> bool
    ensures { (ps : ListOf Path) → free.now ≡ map Free.is_free ps
        → result ≡ Free.is_free (path_over ps binding.now) }
{
    match binding {
        Binding::Iterator { .. } => false,
        Binding::ConstBool { .. }
        | Binding::ConstInt { .. }
        | Binding::ConstPrim { .. }
        | Binding::Argument { .. } => true,
        Binding::Constructor { parameters, .. } => are_free_at(free, parameters.as_slice()),
        Binding::MakeVariant { fields, .. } | Binding::MakeStruct { fields, .. } => {
            are_free_at(free, fields.as_slice())
        }
        Binding::Extractor {
            parameter: source,
            ..
        }
        | Binding::MakeSome { inner: source }
        | Binding::MatchVariant { source, .. }
        | Binding::ExtractStruct { source, .. }
        | Binding::MatchSome { source }
        | Binding::MatchTuple { source, .. } => is_free_at(free, *source),
    }
}

/// Tells of each binding whether nowhere in its path an item is chosen. The only error is want of memory.
pub fn free_of(alloc: Global, bindings: &[Binding]) -> Result<Vec<bool>, AllocError>
    ensures { IfOk result (λ free. free.items ≡ map Free.is_free (paths_of bindings.now)) }
{
    let mut free = Vec::new(alloc);
    for binding in bindings {
        let known = is_free(free.as_slice(), binding);
        free.push(known)?;
    }
    Ok(free)
}
