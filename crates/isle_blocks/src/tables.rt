//! What steps are made from.

ghost use Rattle.std.specs.Prelude.{◌≡◌, IfOk};
ghost use Rattle.isle_blocks.specs.Fields.{inner_place};
ghost use Rattle.isle_blocks.specs.Tables.{next_in, shows_in};

use crate::fields::Fields;
use isle_core::{Binding, BindingId, Constraint};
use std::alloc::{AllocError, Global};
use std::collections::BTreeMap;

/// The bindings of a rule set, those of fields, the inner values of calls by the numbers of the calls and the items of
/// lists by the numbers of the lists, and whether the rules are those of a term that answers several times.
#[derive(Clone, Copy)]
pub struct Tables<'s> {
    pub several: bool,
    pub bindings: &'s [Binding],
    pub fields: &'s Fields,
    pub inners: &'s BTreeMap<usize, BindingId>,
    pub items: &'s BTreeMap<usize, BindingId>,
}

// The one place of an option.
fn inner_place(
    alloc: Global,
    inner: Option<BindingId>,
) -> Result<Vec<Option<BindingId>>, AllocError>
    ensures { IfOk result (λ places. places.items ≡ inner_place inner) }
{
    match inner {
        None => Ok(Vec::new(alloc)),
        Some(binding) => Ok(vec![in alloc; Some(binding)]?),
    }
}

impl Tables<'_> {
    /// Returns what stands directly after a call: its inner value, or its item.
    pub fn next(&self, call: BindingId) -> Option<BindingId>
        ensures { result ≡ next_in self.now call.0 }
    {
        match self.inners.get(&call.index()) {
            Some(inner) => Some(*inner),
            None => self.items.get(&call.index()).copied(),
        }
    }

    /// Returns the bindings of what a constraint shows: the fields up to the last one that has one, or an inner value.
    /// The only error is want of memory.
    pub fn places(
        &self,
        alloc: Global,
        source: BindingId,
        constraint: Constraint,
    ) -> Result<Vec<Option<BindingId>>, AllocError>
        ensures { IfOk result (λ places. places.items ≡ shows_in self.now source constraint) }
    {
        match constraint {
            Constraint::Some => inner_place(alloc, self.inners.get(&source.index()).copied()),
            Constraint::Variant { .. }
            | Constraint::Struct { .. }
            | Constraint::ConstBool { .. }
            | Constraint::ConstInt { .. }
            | Constraint::ConstPrim { .. } => self.fields.places(alloc, source, constraint),
        }
    }
}
