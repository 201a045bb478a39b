ghost use Rattle.std.specs.Prelude.{◌≡◌, List, length, ⊤};
ghost use Rattle.std.specs.Iterator.{at_most};
ghost use Rattle.std.specs.Vec.Iter.{into_iter_items, into_iter_len};

use crate::iterators::ContextIter;
use std::marker::PhantomData;
use std::vec;

/// The items of a list that are left, of every type.
#[derive(Drop)]
pub struct ListIter<T, C> {
    rest: vec::IntoIter<T>,
    context: PhantomData<C>,
}

impl<T, C> ListIter<T, C> {
    /// Makes an iterator that has the items of the list, in order.
    pub(crate) fn new(list: Vec<T>) -> Self
        ensures items { into_iter_items result.rest ≡ list.items }
        ensures len { into_iter_len result.rest ≡ length list.items }
    {
        ListIter {
            rest: list.into_iter(),
            context: PhantomData,
        }
    }
}

impl<T, C> ContextIter for ListIter<T, C> {
    type Context = C;

    type Output = T;

    ghost can_next = { λ iter. ⊤ };

    ghost has_list = { λ iter items.
        (into_iter_items iter.rest ≡ items) × (into_iter_len iter.rest ≡ length items) };

    ghost remaining = { λ iter. at_most (into_iter_len iter.rest) };

    fn next(&mut self, ctx: &mut C) -> Option<T> {
        self.rest.next()
    }

    fn size_hint(&self) -> (usize, Option<usize>) {
        let len = self.rest.len();
        (len, Some(len))
    }
}
