//! What is bound before bindings are read: calls that aren't bound yet, also of extractors, parts of their answers,
//! items of lists, and the made values on the way to them.

ghost use Rattle.std.specs.Prelude.{◌≡◌, OnOk, [], ◌∷◌, Some as Is, option_map, slice_get};
ghost use Rattle.isle_blocks.specs.Needed as Needed;
ghost use Rattle.isle_blocks.specs.Pushed.{Pushes};

use isle_core::{Binding, BindingId};
use isle_scope::Scope;
use std::alloc::AllocError;
use std::slice;

/// Binds a binding, after what is there. The only error is want of memory.
pub fn push_one(
    bound: &mut Scope,
    binding: BindingId,
    order: &mut Vec<BindingId>,
) -> Result<(), AllocError>
    ensures { OnOk result
        (Pushes (binding ∷ []) bound.old bound.new order.old.items order.new.items) }
{
    order.push(binding)?;
    bound.bind(binding.index())?;
    Ok(())
}

// Returns what the list of this number is made over: its call's arguments, or what an extractor takes apart.
fn list_parts_at<'a>(bindings: &'a [Binding], list: BindingId) -> Option<&'a [BindingId]>
    ensures { option_map (λ parts. parts.now) result
        ≡ Needed.list_parts (slice_get bindings.now list.0) }
{
    match bindings.get(list.index()) {
        Some(of) => of.call_parts(),
        None => None,
    }
}

// Returns what a binding is made over that is bound where it is first read.
fn parts_of<'a>(bindings: &'a [Binding], binding: &'a Binding) -> Option<&'a [BindingId]>
    ensures { option_map (λ parts. parts.now) result
        ≡ Needed.parts_of bindings.now (Is binding.now) }
{
    match binding {
        Binding::Constructor { .. } | Binding::Extractor { .. } => binding.call_parts(),
        Binding::Iterator { source } => list_parts_at(bindings, *source),
        Binding::MatchTuple { source, .. } => Some(slice::from_ref(source)),
        _ => binding.made_parts(),
    }
}

// Returns that of the binding of this number.
fn parts_at<'a>(bindings: &'a [Binding], binding: BindingId) -> Option<&'a [BindingId]>
    ensures { option_map (λ parts. parts.now) result
        ≡ Needed.parts_of bindings.now (slice_get bindings.now binding.0) }
{
    match bindings.get(binding.index()) {
        Some(of) => parts_of(bindings, of),
        None => None,
    }
}

/// Returns the list of the item of this number.
pub fn list_at(bindings: &[Binding], binding: BindingId) -> Option<BindingId>
    ensures { result ≡ Needed.list_before (slice_get bindings.now binding.0) }
{
    match bindings.get(binding.index()) {
        Some(of) => of.list(),
        None => None,
    }
}

// Binds a binding, an item after its list.
fn push_itself(
    bindings: &[Binding],
    bound: &mut Scope,
    binding: BindingId,
    order: &mut Vec<BindingId>,
) -> Result<(), AllocError>
    ensures { OnOk result
        (Pushes (Needed.with_list (Needed.list_before (slice_get bindings.now binding.0)) binding)
        bound.old bound.new order.old.items order.new.items) }
{
    if let Some(list) = list_at(bindings, binding) {
        push_one(bound, list, order)?;
    }
    push_one(bound, binding, order)
}

/// Whether a binding is among those that are bound.
pub fn is_bound(bound: &Scope, binding: BindingId) -> bool
    ensures { result ≡ Needed.is_bound bound.now binding }
{
    bound.has(binding.index())
}

// Binds what is not bound yet that a binding is read with, parts first, down to this depth.
#[cycle(needed)]
fn push_needed(
    bindings: &[Binding],
    bound: &mut Scope,
    depth: usize,
    binding: BindingId,
    order: &mut Vec<BindingId>,
) -> Result<(), AllocError>
    ensures { OnOk result
        (Pushes (Needed.needed bindings.now depth bound.old binding) bound.old bound.new
        order.old.items order.new.items) }
{
    if depth == 0 {
        return Ok(());
    }
    if is_bound(bound, binding) {
        return Ok(());
    }
    let Some(parts) = parts_at(bindings, binding) else {
        return Ok(());
    };
    push_each(bindings, bound, depth - 1, parts, order)?;
    push_itself(bindings, bound, binding, order)?;
    Ok(())
}

// Does so for bindings in order, those before being bound.
#[cycle(needed)]
fn push_each(
    bindings: &[Binding],
    bound: &mut Scope,
    depth: usize,
    reads: &[BindingId],
    order: &mut Vec<BindingId>,
) -> Result<(), AllocError>
    ensures { OnOk result
        (Pushes (Needed.each_needed (Needed.needed bindings.now depth) bound.old reads.now)
        bound.old bound.new order.old.items order.new.items) }
{
    for read in reads {
        push_needed(bindings, bound, depth, *read, order)?;
    }
    Ok(())
}

/// Binds what is not bound yet that bindings are read with, after what is there. The only error is want of memory.
pub fn push_needs(
    bindings: &[Binding],
    bound: &mut Scope,
    reads: &[BindingId],
    order: &mut Vec<BindingId>,
) -> Result<(), AllocError>
    ensures { OnOk result
        (Pushes (Needed.needs bindings.now bound.old reads.now) bound.old bound.new order.old.items
        order.new.items) }
{
    push_each(bindings, bound, bindings.len(), reads, order)
}

/// Returns what the call of this number is made on.
pub fn parameters_at<'a>(bindings: &'a [Binding], call: BindingId) -> &'a [BindingId]
    ensures { result.now ≡ Needed.parameters_of (slice_get bindings.now call.0) }
{
    match bindings.get(call.index()) {
        Some(Binding::Constructor { parameters, .. }) => parameters.as_slice(),
        _ => &[],
    }
}
