//! Bind orders before what is done then: in terms that answer several times, items are gone through by Loops.

ghost use Rattle.std.specs.Prelude.{◌≡◌, IfOk, [], reverse, slice_get};
ghost use Rattle.isle_core.specs.BlockViews as BlockViews;
ghost use Rattle.isle_blocks.specs.Nest as Nest;

use crate::needed::list_at;
use crate::steps::{loop_step, step_of};
use crate::tables::Tables;
use isle_core::{BindingId, ControlFlow, EvalStep};
use std::alloc::{AllocError, Global};
use std::mem;

// Returns the step of an order that was gathered from its end on; nothing is gathered then.
fn gathered(alloc: Global, check: ControlFlow, behind: &mut Vec<BindingId>) -> EvalStep
    ensures step { BlockViews.step result ≡ (reverse behind.old.items, BlockViews.control check) }
    ensures none { behind.new.items ≡ [] }
{
    let mut order = mem::replace(behind, Vec::new(alloc));
    order.reverse();
    step_of(order, check)
}

// Puts a binding before an order that is gathered from its end on, or before the step of the order. Not inlined, so
// that `open_each` costs little stack.
#[inline(never)]
fn open_one(
    alloc: Global,
    tables: &Tables<'_>,
    binding: BindingId,
    check: ControlFlow,
    behind: &mut Vec<BindingId>,
) -> Result<ControlFlow, AllocError>
    ensures { IfOk result (λ c.
        (reverse behind.new.items, BlockViews.control c)
        ≡ Nest.open_one (slice_get tables.now.bindings.now binding.0) binding
        (reverse behind.old.items, BlockViews.control check)) }
{
    if list_at(tables.bindings, binding).is_some() {
        let inner = gathered(alloc, check, behind);
        return loop_step(alloc, binding, inner);
    }
    behind.push(binding)?;
    Ok(check)
}

// Does so for the bindings of an order, from its end on.
fn open_each(
    alloc: Global,
    tables: &Tables<'_>,
    order: &[BindingId],
    check: ControlFlow,
    behind: &mut Vec<BindingId>,
) -> Result<ControlFlow, AllocError>
    requires { behind.old.items ≡ [] }
    ensures { IfOk result (λ c.
        (reverse behind.new.items, BlockViews.control c)
        ≡ Nest.opening tables.now.bindings.now order.now (BlockViews.control check)) }
{
    match order {
        [] => Ok(check),
        [binding, more @ ..] => {
            let inner = open_each(alloc, tables, more, check, behind)?;
            open_one(alloc, tables, *binding, inner, behind)
        }
    }
}

/// Makes the step of a bind order and of what is done then. The only error is want of memory.
pub fn opened(
    alloc: Global,
    tables: &Tables<'_>,
    order: Vec<BindingId>,
    check: ControlFlow,
) -> Result<EvalStep, AllocError>
    ensures { IfOk result (λ s.
        BlockViews.step s
        ≡ Nest.opened tables.now.several tables.now.bindings.now order.items
        (BlockViews.control check)) }
{
    if !tables.several {
        return Ok(step_of(order, check));
    }
    let mut behind = Vec::new(alloc);
    let all = open_each(alloc, tables, order.as_slice(), check, &mut behind)?;
    Ok(gathered(alloc, all, &mut behind))
}
