ghost use Rattle.std.specs.Prelude.{◌≡◌, ◌++◌, List, OnOk, OnErr};
ghost use Rattle.std.specs.Iterator.{ExtendsWithItems, IsFinite, MakesProgress};
ghost use Rattle.isle_runtime.specs.Items.{AppendsFront, GivesFirst, HasList};

use crate::iterators::{ContextIter, IntoContextIter};
use crate::list_iter::ListIter;
use crate::lists::{Length, append};
use isle_outside::OutOfMemory;
use std::marker::{Model, PhantomData};

/// An iterator or a list that stands where a context is handed in. Contracts see what is wrapped.
#[derive(Drop)]
pub struct ContextIterWrapper<I, C> {
    iter: I,
    context: PhantomData<C>,
}

impl<I, C> Model for ContextIterWrapper<I, C> {
    ghost Value = { I };

    ghost coded = { I.code };

    ghost view = { λ wrapper. wrapper.iter };
}

impl<I: Default, C> Default for ContextIterWrapper<I, C> {
    ghost is_default = { λ wrapper. I.is_default wrapper };

    fn default() -> Self {
        ContextIterWrapper {
            iter: I::default(),
            context: PhantomData,
        }
    }
}

impl<I, C> From<I> for ContextIterWrapper<I, C> {
    ghost from_gives = { λ iter wrapper. wrapper ≡ iter };

    fn from(iter: I) -> Self {
        ContextIterWrapper {
            iter,
            context: PhantomData,
        }
    }
}

impl<I, C> ContextIterWrapper<I, C> {
    ghost use Rattle.std.specs.Prelude.{◌≡◌};
    ghost use Rattle.std.specs.Borrow.{Lends, sem};
    ghost use Rattle.isle_runtime.specs.contracts.wrapper.ContextIterWrapper.{the_row};

    /// Lends what is wrapped.
    pub fn inner(&self) -> &I
        ensures { result.now ≡ self.now }
    {
        &self.iter
    }

    /// Lends what is wrapped, which ends as what is left after the result.
    pub fn inner_mut(&mut self) -> &mut I
        ensures value { result.now ≡ self.old }
        ensures* writes_back { sem 𝓛
            (Lends (the_row I.row C.row) I.row self.entry result (λ last. last)) }
    {
        &mut self.iter
    }
}

/// The wrapper has the list of the iterator, whatever its items are.
impl<I: Iterator, C> ContextIter for ContextIterWrapper<I, C> {
    type Context = C;

    type Output = I::Item;

    ghost can_next = { λ wrapper. I.can_next wrapper };

    ghost has_list = { λ wrapper items. HasList I.next_gives wrapper items };

    ghost remaining = { λ wrapper. I.remaining wrapper };

    fn next(&mut self, ctx: &mut C) -> Option<I::Item>
        requires { I.can_next self.old }
        ensures first { (items : List I.Item) → HasList I.next_gives self.old items
            → GivesFirst result items (HasList I.next_gives self.new) }
        ensures goes { MakesProgress I.can_next I.remaining self.old result self.new }

        // It does what the iterator does, and nothing to the context.
        ensures steps { I.next_gives self.old result self.new }
        ensures untouched { ctx.new ≡ ctx.old }
    {
        self.iter.next()
    }

    fn size_hint(&self) -> (usize, Option<usize>) {
        self.iter.size_hint()
    }
}

/// Of a list, whatever its items are.
impl<T, C> IntoContextIter for ContextIterWrapper<Vec<T>, C> {
    type Context = C;

    type Output = T;

    type IntoIter = ListIter<T, C>;

    ghost has_items = { λ wrapper items. wrapper.items ≡ items };

    fn into_context_iter(self) -> Self::IntoIter {
        ListIter::new(self.iter)
    }
}

impl<L: Length, C> Length for ContextIterWrapper<L, C> {
    ghost count = { λ wrapper. L.count wrapper };

    fn len(&self) -> usize {
        self.iter.len()
    }
}

impl<T, C> ContextIterWrapper<Vec<T>, C> {
    /// Appends the items in order. Where memory runs out, a front of them was appended.
    pub fn extend<It: Iterator<Item = T>>(&mut self, items: It) -> Result<(), OutOfMemory>
        requires can_next { It.can_next items }
        requires ends { IsFinite (It.remaining items) }
        ensures all { OnOk result ((list : List T) → HasList It.next_gives items list
            → self.new.items ≡ self.old.items ++ list) }
        ensures front { OnErr result ((list : List T) → HasList It.next_gives items list
            → AppendsFront self.old.items self.new.items list) }

        // The same, call by call: what the calls gave is what was appended.
        ensures ran { ExtendsWithItems (λ taken iter. iter ≡ taken) It.next_gives
            (λ old given new. new.items ≡ old.items ++ given) items self.old self.new result }
    {
        append(&mut self.iter, items)
    }
}
