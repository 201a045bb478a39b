//! The parts of a program's text that are the same for all programs.

ghost use Rattle.std.specs.Prelude.{◌≡◌, ◌++◌, OnOk};
ghost use Rattle.isle_spelling.specs.Fixed.{allow_tokens, uses_tokens, fixed_tokens};

use isle_printer::Printer;
use std::alloc::AllocError;

/// The lines that keep rustc from warning.
const ALLOW: &str = "#![allow(dead_code, unreachable_code, unreachable_patterns)]
#![allow(unused_imports, unused_variables, non_snake_case, unused_mut)]
#![allow(irrefutable_let_patterns, unused_assignments, non_camel_case_types)]
";

/// The names that come from around the program.
const USES: &str = "use super::*;
use core::marker::PhantomData;
";

/// The items that are the same in every program.
const FIXED: &str = "pub trait ContextIter {
    type Context;
    type Output;
    fn next(&mut self, ctx: &mut Self::Context) -> Option<Self::Output>;
    fn size_hint(&self) -> (usize, Option<usize>) { (0, None) }
}
pub trait IntoContextIter {
    type Context;
    type Output;
    type IntoIter: ContextIter<Context = Self::Context, Output = Self::Output>;
    fn into_context_iter(self) -> Self::IntoIter;
}
pub trait Length {
    fn len(&self) -> usize;
}
impl<T> Length for alloc::vec::Vec<T> {
    fn len(&self) -> usize { alloc::vec::Vec::len(self) }
}
pub struct ContextIterWrapper<I, C> {
    iter: I,
    _ctx: core::marker::PhantomData<C>,
}
impl<I: Default, C> Default for ContextIterWrapper<I, C> {
    fn default() -> Self { ContextIterWrapper { iter: I::default(), _ctx: core::marker::PhantomData } }
}
impl<I, C> core::ops::Deref for ContextIterWrapper<I, C> {
    type Target = I;
    fn deref(&self) -> &I { &self.iter }
}
impl<I, C> core::ops::DerefMut for ContextIterWrapper<I, C> {
    fn deref_mut(&mut self) -> &mut I { &mut self.iter }
}
impl<I: Iterator, C: Context> From<I> for ContextIterWrapper<I, C> {
    fn from(iter: I) -> Self { Self { iter, _ctx: core::marker::PhantomData } }
}
impl<I: Iterator, C: Context> ContextIter for ContextIterWrapper<I, C> {
    type Context = C;
    type Output = I::Item;
    fn next(&mut self, _ctx: &mut Self::Context) -> Option<Self::Output> { self.iter.next() }
    fn size_hint(&self) -> (usize, Option<usize>) { self.iter.size_hint() }
}
impl<I: IntoIterator, C: Context> IntoContextIter for ContextIterWrapper<I, C> {
    type Context = C;
    type Output = I::Item;
    type IntoIter = ContextIterWrapper<I::IntoIter, C>;
    fn into_context_iter(self) -> Self::IntoIter {
        ContextIterWrapper { iter: self.iter.into_iter(), _ctx: core::marker::PhantomData }
    }
}
impl<T, E: Extend<T>, C> Extend<T> for ContextIterWrapper<E, C> {
    fn extend<I: IntoIterator<Item = T>>(&mut self, iter: I) { self.iter.extend(iter); }
}
impl<L: Length, C> Length for ContextIterWrapper<L, C> {
    fn len(&self) -> usize { self.iter.len() }
}
";

/// Prints the lines that keep rustc from warning.
pub fn print_allow(out: &mut Printer) -> Result<(), AllocError>
    ensures { OnOk result (out.new ≡ out.old ++ allow_tokens) }
{
    out.fixed(ALLOW)
}

/// Prints the uses.
pub fn print_uses(out: &mut Printer) -> Result<(), AllocError>
    ensures { OnOk result (out.new ≡ out.old ++ uses_tokens) }
{
    out.fixed(USES)
}

/// Prints the fixed items.
pub fn print_fixed(out: &mut Printer) -> Result<(), AllocError>
    ensures { OnOk result (out.new ≡ out.old ++ fixed_tokens) }
{
    out.fixed(FIXED)
}
