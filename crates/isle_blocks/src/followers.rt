//! The inner values of calls and the items of lists, by the numbers of what they stand after.

ghost use Rattle.std.specs.Prelude.{◌≡◌, IfOk};
ghost use Rattle.std.specs.Ordering.{nat_cmp};
ghost use Rattle.std.specs.BTreeMap.{get};
ghost use Rattle.isle_blocks.specs.Followers as Followers;

use isle_core::{Binding, BindingId};
use std::alloc::{AllocError, Global};
use std::collections::BTreeMap;

/// What stands after a source: its inner value, or its item.
#[derive(Clone, Copy)]
pub enum Following {
    Inner,
    Item,
}

// A source that stands before a place.
fn earlier(place: usize, source: Option<BindingId>) -> Option<BindingId>
    ensures { result ≡ Followers.earlier place source }
{
    match source {
        None => None,
        Some(binding) => {
            if binding.index() < place {
                Some(binding)
            } else {
                None
            }
        }
    }
}

// The source of a binding at a place, where it stands before it.
fn source_at(following: Following, place: usize, binding: &Binding) -> Option<BindingId>
    ensures { result ≡ Followers.source_at following place binding.now }
{
    match following {
        Following::Inner => earlier(place, binding.option()),
        Following::Item => earlier(place, binding.list()),
    }
}

/// Finds what follows each source, by the source's number. The only error is want of memory.
pub fn followers_of(
    alloc: Global,
    bindings: &[Binding],
    following: Following,
) -> Result<BTreeMap<usize, BindingId>, AllocError>
    ensures { IfOk result (λ followers.
        Followers.FindsFollowers following bindings.now (get nat_cmp followers)) }
{
    let mut followers = BTreeMap::new(alloc);
    for (place, binding) in bindings.iter().enumerate() {
        if let Some(source) = source_at(following, place, binding) {
            followers.insert(source.index(), BindingId(place))?;
        }
    }
    Ok(followers)
}
