//! The bindings of fields, by the tests that show them.

ghost use Rattle.std.specs.Prelude.{◌≡◌, IfOk};
ghost use Rattle.std.specs.BTreeMap.{get};
ghost use Rattle.isle_blocks.specs.Fields as FieldsOf;

use isle_core::{Binding, BindingId, Constraint, TupleIndex, VariantId};
use std::alloc::{AllocError, Global};
use std::collections::BTreeMap;

/// What shows fields: a value as a variant, or as a struct.
#[derive(Clone, Copy, PartialEq, Eq, PartialOrd, Ord)]
pub enum Shown {
    Variant(BindingId, VariantId),
    Struct(BindingId),
}

/// The bindings of fields by what shows them, and how many places those take.
#[derive(Drop)]
pub struct Fields {
    found: BTreeMap<(Shown, usize), BindingId>,
    counts: BTreeMap<Shown, usize>,
}

impl Shown {
    // A field, where its source stands before this place.
    fn before(self, place: usize, field: TupleIndex) -> Option<(Shown, TupleIndex)>
        ensures { result ≡ FieldsOf.before place self field }
    {
        let source = match self {
            Shown::Variant(source, _) | Shown::Struct(source) => source,
        };
        if source.index() < place {
            Some((self, field))
        } else {
            None
        }
    }
}

// The field that a binding at a place is, where its source stands before it.
fn field_at(place: usize, binding: &Binding) -> Option<(Shown, TupleIndex)>
    ensures { result ≡ FieldsOf.field_at place binding.now }
{
    match binding {
        Binding::MatchVariant {
            source,
            variant,
            field,
        } => Shown::Variant(*source, *variant).before(place, *field),
        Binding::ExtractStruct { source, field } => Shown::Struct(*source).before(place, *field),
        _ => None,
    }
}

// A count that is above the number of a field.
fn longer(known: Option<usize>, field: TupleIndex) -> usize
    ensures { result ≡ FieldsOf.longer known field.0 }
{
    let next = field.index() + 1;
    match known {
        None => next,
        Some(count) => { if count < next { next } else { count } }
    }
}

/// Finds the binding of each field that has one after its source. The only error is want of memory.
pub fn fields_of(alloc: Global, bindings: &[Binding]) -> Result<Fields, AllocError>
    ensures { IfOk result (λ fields.
        FieldsOf.FindsFields bindings.now (get FieldsOf.key_cmp fields.found)
        (get FieldsOf.shown_cmp fields.counts)) }
{
    let mut found = BTreeMap::new(alloc);
    let mut counts = BTreeMap::new(alloc);
    for (place, binding) in bindings.iter().enumerate() {
        if let Some((shown, field)) = field_at(place, binding) {
            let count = longer(counts.get(&shown).copied(), field);
            counts.insert(shown, count)?;
            found.insert((shown, field.index()), BindingId(place))?;
        }
    }
    Ok(Fields { found, counts })
}

// What a constraint on a source shows.
fn shown_by(source: BindingId, constraint: Constraint) -> Option<Shown>
    ensures { result ≡ FieldsOf.shown_by source constraint }
{
    match constraint {
        Constraint::Variant { variant, .. } => Some(Shown::Variant(source, variant)),
        Constraint::Struct { .. } => Some(Shown::Struct(source)),
        Constraint::ConstBool { .. }
        | Constraint::ConstInt { .. }
        | Constraint::ConstPrim { .. }
        | Constraint::Some => None,
    }
}

impl Fields {
    // The bindings of the first fields of what is shown.
    fn first_places(
        &self,
        alloc: Global,
        shown: Shown,
        count: usize,
    ) -> Result<Vec<Option<BindingId>>, AllocError>
        ensures { IfOk result (λ places.
            places.items
            ≡ FieldsOf.first_places (λ field. get FieldsOf.key_cmp self.now.found (shown, field))
            count) }
    {
        let mut places = Vec::new(alloc);
        for field in 0..count {
            places.push(self.found.get(&(shown, field)).copied())?;
        }
        Ok(places)
    }

    /// Returns the bindings of the fields that a constraint shows, up to the last one that has one. The only error is
    /// want of memory.
    pub fn places(
        &self,
        alloc: Global,
        source: BindingId,
        constraint: Constraint,
    ) -> Result<Vec<Option<BindingId>>, AllocError>
        ensures { IfOk result (λ places.
            places.items
            ≡ FieldsOf.places_of (get FieldsOf.key_cmp self.now.found)
            (get FieldsOf.shown_cmp self.now.counts) (FieldsOf.shown_by source constraint)) }
    {
        match shown_by(source, constraint) {
            None => Ok(Vec::new(alloc)),
            Some(shown) => {
                let count = self.counts.get(&shown).copied().unwrap_or(0);
                self.first_places(alloc, shown, count)
            }
        }
    }
}
