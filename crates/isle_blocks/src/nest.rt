ghost use Rattle.std.specs.Prelude.{◌≡◌, IfOk, OnOk, [], ◌∷◌, ◌++◌};
ghost use Rattle.isle_core.specs.ArmPlaces.{bound_within};
ghost use Rattle.isle_core.specs.Bindable.{bound_by};
ghost use Rattle.isle_core.specs.BlockViews as BlockViews;
ghost use Rattle.isle_blocks.specs.Needed.{is_bound as is_bound_in};
ghost use Rattle.isle_blocks.specs.Nest as Nest;
ghost use Rattle.isle_blocks.specs.Pushed.{Pushes, Grows};
ghost use Rattle.isle_blocks.specs.Tables.{ground, shows_in, items_in, next_in};
ghost use Rattle.isle_blocks.specs.Tree as Tree;
ghost use Rattle.isle_blocks.specs.Ways.{way};

use crate::needed::{is_bound, parameters_at, push_needs, push_one};
use crate::openings::opened;
use crate::steps::{equal_step, match_step, return_step};
use crate::tables::Tables;
use crate::ways::Way;
use isle_core::{BindingId, Constraint, EvalStep, FlatRule};
use isle_scope::Scope;
use std::alloc::{AllocError, Global};
use std::slice;

// Binds a call after what it is made on, and what stands after it.
fn push_call(
    tables: &Tables<'_>,
    bound: &mut Scope,
    call: BindingId,
    order: &mut Vec<BindingId>,
) -> Result<(), AllocError>
    ensures { OnOk result
        (Pushes (Nest.call_binds tables.now.bindings.now (next_in tables.now) bound.old call)
        bound.old bound.new order.old.items order.new.items) }
{
    push_needs(
        tables.bindings,
        bound,
        parameters_at(tables.bindings, call),
        order,
    )?;
    push_one(bound, call, order)?;
    if let Some(next) = tables.next(call) {
        push_one(bound, next, order)?;
    }
    Ok(())
}

// Binds calls in order.
fn push_calls(
    tables: &Tables<'_>,
    bound: &mut Scope,
    calls: &[BindingId],
    order: &mut Vec<BindingId>,
) -> Result<(), AllocError>
    ensures { OnOk result
        (Pushes (Nest.binds tables.now.bindings.now (next_in tables.now) bound.old calls.now)
        bound.old bound.new order.old.items order.new.items) }
{
    for call in calls {
        push_call(tables, bound, *call, order)?;
    }
    Ok(())
}

// Whether a call is bound, and what stands after it.
fn was_bound(tables: &Tables<'_>, bound: &Scope, call: BindingId) -> bool
    ensures { result ≡ Nest.was_bound (next_in tables.now) bound.now call }
{
    match tables.next(call) {
        None => is_bound(bound, call),
        Some(next) => is_bound(bound, call) && is_bound(bound, next),
    }
}

// Puts a call after others, if it is still to be bound.
fn push_left(
    tables: &Tables<'_>,
    bound: &Scope,
    call: BindingId,
    left: &mut Vec<BindingId>,
) -> Result<(), AllocError>
    ensures { OnOk result
        (left.new.items
        ≡ left.old.items
        ++ Nest.left_one (Nest.was_bound (next_in tables.now) bound.now call) call) }
{
    if was_bound(tables, bound, call) {
        return Ok(());
    }
    left.push(call)?;
    Ok(())
}

// The calls that are still to be bound, in order.
fn left_calls(
    alloc: Global,
    tables: &Tables<'_>,
    bound: &Scope,
    calls: &[BindingId],
) -> Result<Vec<BindingId>, AllocError>
    ensures { IfOk result (λ left.
        left.items ≡ Nest.left_calls (next_in tables.now) bound.now calls.now) }
{
    let mut left = Vec::new(alloc);
    for call in calls {
        push_left(tables, bound, *call, &mut left)?;
    }
    Ok(left)
}

// Binds the calls of a rule that no test bound, and then what its result is read with.
fn push_behind_lists(
    alloc: Global,
    tables: &Tables<'_>,
    bound: &mut Scope,
    rule: &FlatRule,
    order: &mut Vec<BindingId>,
) -> Result<(), AllocError>
    ensures { OnOk result
        (Pushes (Nest.behind_lists tables.now.bindings.now (next_in tables.now) bound.old rule.now)
        bound.old bound.new order.old.items order.new.items) }
{
    let calls = left_calls(alloc, tables, bound, rule.ordered.as_slice())?;
    push_calls(tables, bound, calls.as_slice(), order)?;
    push_needs(tables.bindings, bound, slice::from_ref(&rule.result), order)?;
    Ok(())
}

// Puts the item of a list after others, if the list isn't one of the calls that are bound in order.
fn push_item(
    tables: &Tables<'_>,
    called: &Scope,
    list: BindingId,
    left: &mut Vec<BindingId>,
) -> Result<(), AllocError>
    ensures { OnOk result
        (left.new.items
        ≡ left.old.items
        ++ Nest.left_item (is_bound_in called.now list) (items_in tables.now list.0)) }
{
    if is_bound(called, list) {
        return Ok(());
    }
    if let Some(item) = tables.items.get(&list.index()) {
        left.push(*item)?;
    }
    Ok(())
}

// The items of such lists, in order.
fn items_left(
    alloc: Global,
    tables: &Tables<'_>,
    called: &Scope,
    lists: &[BindingId],
) -> Result<Vec<BindingId>, AllocError>
    ensures { IfOk result (λ left.
        left.items ≡ Nest.items_left (items_in tables.now) called.now lists.now) }
{
    let mut left = Vec::new(alloc);
    for list in lists {
        push_item(tables, called, *list, &mut left)?;
    }
    Ok(left)
}

// The calls of a rule, as a set.
fn called(alloc: Global, calls: &[BindingId]) -> Result<Scope, AllocError>
    ensures { IfOk result (λ set. set ≡ bound_by [] calls.now) }
{
    let mut set = Scope::new(alloc);
    for call in calls {
        set.bind(call.index())?;
    }
    Ok(set)
}

// The items of a rule's lists that aren't among its calls, in a term that answers several times.
fn left_items(
    alloc: Global,
    tables: &Tables<'_>,
    rule: &FlatRule,
) -> Result<Vec<BindingId>, AllocError>
    ensures { IfOk result (λ left.
        left.items ≡ Nest.left_items tables.now.several (items_in tables.now) rule.now) }
{
    if !tables.several {
        return Ok(Vec::new(alloc));
    }
    let calls = called(alloc, rule.ordered.as_slice())?;
    items_left(alloc, tables, &calls, rule.iterators.as_slice())
}

// Binds the lists of a rule that no test needed, then its calls, and what its result is read with.
fn push_last(
    alloc: Global,
    tables: &Tables<'_>,
    bound: &mut Scope,
    rule: &FlatRule,
    order: &mut Vec<BindingId>,
) -> Result<(), AllocError>
    ensures { OnOk result
        (Pushes (Nest.last_binds tables.now.several tables.now.bindings.now (next_in tables.now)
        (items_in tables.now) bound.old rule.now) bound.old bound.new order.old.items
        order.new.items) }
{
    let items = left_items(alloc, tables, rule)?;
    push_needs(tables.bindings, bound, items.as_slice(), order)?;
    push_behind_lists(alloc, tables, bound, rule, order)?;
    Ok(())
}

// The lists, the calls and the result of a rule.
fn last_step(
    alloc: Global,
    tables: &Tables<'_>,
    bound: &mut Scope,
    rule: &FlatRule,
) -> Result<EvalStep, AllocError>
    ensures step { IfOk result (λ s.
        BlockViews.step s
        ≡ Nest.last_step tables.now.several tables.now.bindings.now (next_in tables.now)
        (items_in tables.now) rule.now bound.old) }
    ensures grows { OnOk result (Grows bound.old bound.new) }
{
    let mut order = Vec::new(alloc);
    push_last(alloc, tables, bound, rule, &mut order)?;
    opened(alloc, tables, order, return_step(rule.pos, rule.result))
}

// The equalities of a rule, each round those after it, and the last one round the rule's last step.
fn equals_from(
    alloc: Global,
    tables: &Tables<'_>,
    bound: &mut Scope,
    rule: &FlatRule,
    equals: &[(BindingId, BindingId)],
) -> Result<EvalStep, AllocError>
    ensures step { IfOk result (λ s.
        BlockViews.step s
        ≡ Nest.all_equated tables.now.several tables.now.bindings.now equals.now
        (Nest.last_step tables.now.several tables.now.bindings.now (next_in tables.now)
        (items_in tables.now) rule.now) bound.old) }
    ensures grows { OnOk result (Grows bound.old bound.new) }
{
    match equals {
        [] => last_step(alloc, tables, bound, rule),
        [(a, b), more @ ..] => {
            let mut order = Vec::new(alloc);
            push_needs(tables.bindings, bound, &[*a, *b], &mut order)?;
            let inner = equals_from(alloc, tables, bound, rule, more)?;
            let check = equal_step(alloc, *a, *b, inner)?;
            opened(alloc, tables, order, check)
        }
    }
}

// Binds what stands in a place.
fn bind_place(bound: &mut Scope, place: Option<BindingId>) -> Result<(), AllocError>
    ensures more { OnOk result (bound.new ≡ bound_within bound.old (place ∷ [])) }
    ensures grows { OnOk result (Grows bound.old bound.new) }
{
    match place {
        None => Ok(()),
        Some(binding) => bound.bind(binding.index()),
    }
}

/// Binds what stands in the places of an arm. The only error is want of memory.
pub fn bind_places(bound: &mut Scope, places: &[Option<BindingId>]) -> Result<(), AllocError>
    ensures more { OnOk result (bound.new ≡ bound_within bound.old places.now) }
    ensures grows { OnOk result (Grows bound.old bound.new) }
{
    for place in places {
        bind_place(bound, *place)?;
    }
    Ok(())
}

// The matches of a rule, each round those after it, and the last one round the rule's equalities.
fn matches_from(
    alloc: Global,
    tables: &Tables<'_>,
    bound: &mut Scope,
    rule: &FlatRule,
    constraints: &[(BindingId, Constraint)],
) -> Result<EvalStep, AllocError>
    ensures step { IfOk result (λ s.
        BlockViews.step s
        ≡ Nest.all_matched tables.now.several tables.now.bindings.now (shows_in tables.now)
        constraints.now
        (Nest.all_equated tables.now.several tables.now.bindings.now rule.now.equals
        (Nest.last_step tables.now.several tables.now.bindings.now (next_in tables.now)
        (items_in tables.now) rule.now)) bound.old) }
    ensures grows { OnOk result (Grows bound.old bound.new) }
{
    match constraints {
        [] => equals_from(alloc, tables, bound, rule, rule.equals.as_slice()),
        [(source, constraint), more @ ..] => {
            let mut order = Vec::new(alloc);
            push_needs(tables.bindings, bound, slice::from_ref(source), &mut order)?;
            let places = tables.places(alloc, *source, *constraint)?;
            bind_places(bound, places.as_slice())?;
            let inner = matches_from(alloc, tables, bound, rule, more)?;
            let check = match_step(alloc, *source, *constraint, places, inner)?;
            opened(alloc, tables, order, check)
        }
    }
}

/// Makes the step of a rule from after its early tests on: the others, each round what follows, with what it shows
/// bound, and inside them its equalities, its lists, its calls and its result. What is needed to read a binding is
/// bound at its first reading. The only error is want of memory.
pub fn way_step(
    alloc: Global,
    tables: &Tables<'_>,
    bound: &mut Scope,
    own: &Way<'_>,
) -> Result<EvalStep, AllocError>
    ensures step { IfOk result (λ s.
        BlockViews.step s ≡ Tree.way_step (ground tables.now) (way own.now) bound.old) }
    ensures grows { OnOk result (Grows bound.old bound.new) }
{
    matches_from(alloc, tables, bound, own.rule, own.late)
}
