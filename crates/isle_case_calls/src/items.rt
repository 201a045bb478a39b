//! Context iterators, as a user of the emitted text has them: over a list, over an iterator of std, and one
//! written by hand.

ghost use Rattle.std.specs.Prelude.{◌≡◌, List, [], IfOk, ⊤};
ghost use Rattle.std.specs.Iterator.{IsFinite, at_most};

use isle_case_reading::shown::{digit, push_all, yes_no};
use isle_core::OutOfMemory;
use isle_runtime::{ContextIter, ContextIterWrapper, IntoContextIter, Length};
use std::alloc::{AllocError, Global};

// A context that counts how often it was handed in. It can't be dropped.
struct Context {
    asked: usize,
}

// An iterator with no item.
#[derive(Default, Drop)]
struct NoLetters;

impl ContextIter for NoLetters {
    type Context = Context;

    type Output = char;

    ghost can_next = { λ none. ⊤ };

    ghost has_list = { λ none items. items ≡ [] };

    ghost remaining = { λ none. at_most 0 };

    fn next(&mut self, ctx: &mut Context) -> Option<char> {
        ctx.asked = ctx.asked.saturating_add(1);
        None
    }
}

// All items still to come, by the trait's clauses alone.
fn all<I: ContextIter + Drop>(
    alloc: Global,
    mut iter: I,
    ctx: &mut I::Context,
) -> Result<Vec<I::Output>, OutOfMemory>
where
    I::Output: Drop,
    requires can_next { I.can_next iter }
    requires ends { IsFinite (I.remaining iter) }
    ensures { IfOk result (λ all.
        (items : List I.Output) → I.has_list iter items → all.items ≡ items) }
{
    let mut all = Vec::new(alloc);
    while let Some(item) = iter.next(ctx) {
        all.push(item)?;
    }
    Ok(all)
}

// The letters of a slice, by a wrapped iterator of std.
fn copied(alloc: Global, letters: &[char], ctx: &mut Context) -> Result<Vec<char>, OutOfMemory>
    ensures { IfOk result (λ all. all.items ≡ letters.now) }
{
    let iter = letters.iter().copied();
    all(alloc, ContextIterWrapper::from(iter), ctx)
}

// A wrapped list of three letters: one written after `inner_mut`, and two that `extend` appends.
fn wrapped(alloc: Global) -> Result<ContextIterWrapper<Vec<char>, Context>, OutOfMemory> {
    let mut list = ContextIterWrapper::from(Vec::new(alloc));
    list.inner_mut().push('a')?;
    list.extend(['b', 'c'].into_iter())?;
    Ok(list)
}

// The letters of the wrapped list.
fn listed(alloc: Global, ctx: &mut Context) -> Result<Vec<char>, OutOfMemory> {
    let list = wrapped(alloc)?;
    all(alloc, list.into_context_iter(), ctx)
}

// Writes letters, and a line feed.
fn push_letters(lines: &mut String, letters: &[char]) -> Result<(), AllocError> {
    for letter in letters {
        lines.push(*letter)?;
    }
    lines.push_str("\n")
}

// How many items the wrapped list has, by the wrapper and by the list, and what its iterator hints at: at
// least, and at most.
fn counts(alloc: Global) -> Result<[usize; 4], OutOfMemory> {
    let list = wrapped(alloc)?;
    let length = list.len();
    let inside = list.inner().len();
    let hint = list.into_context_iter().size_hint();
    Ok([length, inside, hint.0, hint.1.unwrap_or(0)])
}

// Writes them.
fn push_counts(alloc: Global, lines: &mut String) -> Result<(), OutOfMemory> {
    let [length, inside, least, most] = counts(alloc)?;
    push_all(lines, &["lengths ", digit(length), " ", digit(inside)])?;
    push_all(lines, &[", hint ", digit(least), " ", digit(most), "\n"])?;
    Ok(())
}

// Writes the letters of the list and of a slice, and how often the context was used for them.
fn push_items(alloc: Global, lines: &mut String, ctx: &mut Context) -> Result<(), OutOfMemory> {
    lines.push_str("list ")?;
    push_letters(lines, listed(alloc, ctx)?.as_slice())?;
    lines.push_str("slice ")?;
    push_letters(lines, copied(alloc, &['d', 'e'], ctx)?.as_slice())?;
    push_all(lines, &["asked ", digit(ctx.asked), "\n"])?;
    Ok(())
}

// Whether the iterator without items gives one, and what it hints at.
fn of_none(ctx: &mut Context) -> (bool, usize, bool) {
    let mut none = ContextIterWrapper::<NoLetters, Context>::default();
    let given = none.inner_mut().next(ctx);
    let hint = none.inner().size_hint();
    (given.is_some(), hint.0, hint.1.is_some())
}

// Writes it, and how often the context was handed in.
fn push_nothing(lines: &mut String, ctx: &mut Context) -> Result<(), AllocError> {
    let found = of_none(ctx);
    push_all(lines, &["nothing: given ", yes_no(found.0)])?;
    push_all(lines, &[", hint ", digit(found.1), " ", yes_no(found.2)])?;
    push_all(lines, &[", asked ", digit(ctx.asked), "\n"])
}

// Writes what the iterators give over a context.
fn push_over(alloc: Global, lines: &mut String, ctx: &mut Context) -> Result<(), OutOfMemory> {
    push_counts(alloc, lines)?;
    push_items(alloc, lines, ctx)?;
    push_nothing(lines, ctx)?;
    Ok(())
}

/// Writes what the iterators give.
pub fn push_iterators(alloc: Global, lines: &mut String) -> Result<(), OutOfMemory> {
    let mut ctx = Context { asked: 0 };
    let pushed = push_over(alloc, lines, &mut ctx);
    let Context { asked: _asked } = ctx;
    pushed
}
