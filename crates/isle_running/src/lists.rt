//! The items of lists that locals hold.

ghost use Rattle.std.specs.Prelude.{◌≡◌, IfOk, length, map, option_map, slice_get};
ghost use Rattle.isle_tree.specs.Run.{look};
ghost use Rattle.isle_running.specs.RunViews.{item, held, locals};
ghost use Rattle.isle_running.specs.Steps.{list_in, item_at};

use crate::frame::Frame;
use crate::holding::{Holding, Item, item_copied};
use std::alloc::{AllocError, Global};

// The items of a list that a place holds, where it holds one.
fn items_in(holding: &Holding) -> Option<&[Item]>
    ensures { option_map (λ is. map item is.now) result ≡ list_in (held holding.now) }
{
    match holding {
        Holding::Listed(items) => Some(items.as_slice()),
        Holding::One(_) | Holding::Optional(_) | Holding::Absent => None,
    }
}

// The items of a list that a local holds, where it holds one.
fn items_of<'f>(frame: &'f Frame<'_>, local: usize) -> Option<&'f [Item]>
    ensures { option_map (λ is. map item is.now) result
        ≡ list_in (look (locals frame.now.locals) local) }
{
    match frame.locals.get(local) {
        Some(found) => items_in(found),
        None => None,
    }
}

/// Returns how many items the list has that a local holds, where it holds one.
pub fn list_len(frame: &Frame<'_>, local: usize) -> Option<usize>
    ensures { result
        ≡ option_map (λ is. length is) (list_in (look (locals frame.now.locals) local)) }
{
    match items_of(frame, local) {
        Some(items) => Some(items.len()),
        None => None,
    }
}

/// Copies the item of this number of the list that a local holds, where it is there.
pub fn item_at(
    alloc: Global,
    frame: &Frame<'_>,
    local: usize,
    index: usize,
) -> Result<Holding, AllocError>
    ensures { IfOk result (λ h. held h ≡ item_at index (look (locals frame.now.locals) local)) }
{
    let items = match items_of(frame, local) {
        Some(items) => items,
        None => return Ok(Holding::Absent),
    };
    match items.get(index) {
        Some(found) => Ok(Holding::Optional(Some(item_copied(alloc, found)?))),
        None => Ok(Holding::Optional(None)),
    }
}
