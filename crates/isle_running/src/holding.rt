//! What places hold in a run.

ghost use Rattle.std.specs.Prelude.{◌≡◌, IfOk, option_map, slice_get};
ghost use Rattle.isle_core.specs.SameInRun.{same_in_run};
ghost use Rattle.isle_core.specs.ValueViews.{value, values};
ghost use Rattle.isle_tree.specs.Run.{value_in, part_of};
ghost use Rattle.isle_running.specs.RunViews.{item, held};
ghost use Rattle.isle_running.specs.Steps.{item_within};

use isle_core::{List, Value};
use isle_outcomes::{copied, same};
use std::alloc::{AllocError, Global};

/// An item: one value, or a tuple of values.
#[derive(Drop)]
pub enum Item {
    Value(Value),
    Tuple(List<Value>),
}

/// What a place holds: nothing that there is, an item, an option of one, or a list of items.
#[derive(Drop)]
pub enum Holding {
    Absent,
    One(Item),
    Optional(Option<Item>),
    Listed(List<Item>),
}

/// Copies values in order.
pub fn values_copied(alloc: Global, given: &[Value]) -> Result<List<Value>, AllocError>
    ensures { IfOk result (λ copies. copies ≡ given.now) }
{
    let mut copies = Vec::new(alloc);
    for value in given {
        copies.push(copied(alloc, value)?)?;
    }
    Ok(List::new(copies))
}

/// Copies an item.
pub fn item_copied(alloc: Global, given: &Item) -> Result<Item, AllocError>
    ensures { IfOk result (λ copy. copy ≡ given.now) }
{
    match given {
        Item::Value(value) => Ok(Item::Value(copied(alloc, value)?)),
        Item::Tuple(values) => Ok(Item::Tuple(values_copied(alloc, values.as_slice())?)),
    }
}

// Copies items in order.
fn items_copied(alloc: Global, given: &[Item]) -> Result<List<Item>, AllocError>
    ensures { IfOk result (λ copies. copies ≡ given.now) }
{
    let mut copies = Vec::new(alloc);
    for item in given {
        copies.push(item_copied(alloc, item)?)?;
    }
    Ok(List::new(copies))
}

/// Copies what a place holds.
pub fn holding_copied(alloc: Global, given: &Holding) -> Result<Holding, AllocError>
    ensures { IfOk result (λ copy. copy ≡ given.now) }
{
    match given {
        Holding::Absent => Ok(Holding::Absent),
        Holding::One(item) => Ok(Holding::One(item_copied(alloc, item)?)),
        Holding::Optional(None) => Ok(Holding::Optional(None)),
        Holding::Optional(Some(item)) => Ok(Holding::Optional(Some(item_copied(alloc, item)?))),
        Holding::Listed(items) => Ok(Holding::Listed(items_copied(alloc, items.as_slice())?)),
    }
}

/// Gives the value that a place holds, where it is one.
pub fn value_in(holding: Holding) -> Option<Value>
    ensures { option_map value result ≡ value_in (held holding) }
{
    match holding {
        Holding::One(Item::Value(value)) => Some(value),
        Holding::One(Item::Tuple(_))
        | Holding::Optional(_)
        | Holding::Listed(_)
        | Holding::Absent => None,
    }
}

/// Gives the value that a place holds, where it is one, and leaves it there.
pub fn value_held(holding: &Holding) -> Option<&Value>
    ensures { option_map (λ found. value found.now) result ≡ value_in (held holding.now) }
{
    match holding {
        Holding::One(Item::Value(value)) => Some(value),
        Holding::One(Item::Tuple(_))
        | Holding::Optional(_)
        | Holding::Listed(_)
        | Holding::Absent => None,
    }
}

// Copies the value at an index, where there is one.
fn value_at(alloc: Global, given: &[Value], index: usize) -> Result<Option<Value>, AllocError>
    ensures { IfOk result (λ copy. option_map value copy ≡ slice_get (values given.now) index) }
{
    match given.get(index) {
        Some(found) => Ok(Some(copied(alloc, found)?)),
        None => Ok(None),
    }
}

/// Gives the value of a part of a tuple that a place holds, where it has that part.
pub fn part_of(alloc: Global, holding: Holding, part: usize) -> Result<Option<Value>, AllocError>
    ensures { IfOk result (λ found. option_map value found ≡ part_of part (held holding)) }
{
    match holding {
        Holding::One(Item::Tuple(values)) => value_at(alloc, values.as_slice(), part),
        Holding::One(Item::Value(_))
        | Holding::Optional(_)
        | Holding::Listed(_)
        | Holding::Absent => Ok(None),
    }
}

/// Gives what is within an option that a place holds, where something is.
pub fn item_within(holding: &Holding) -> Option<&Item>
    ensures { option_map (λ found. item found.now) result ≡ item_within (held holding.now) }
{
    match holding {
        Holding::Optional(Some(found)) => Some(found),
        Holding::Optional(None) | Holding::One(_) | Holding::Listed(_) | Holding::Absent => None,
    }
}

/// Tells whether a value is equal in a run to one that is given up.
pub fn is_equal(one: &Value, other: Value) -> bool
    ensures { result ≡ same_in_run (value one.now) (value other) }
{
    same(one, &other)
}
