ghost use Rattle.std.specs.Prelude.{◌≡◌};
ghost use Rattle.isle_core.specs.Making.{making_in};
ghost use Rattle.isle_rulesets.specs.Made.{seen, constraint_of, field_key, whole_key};

use crate::keys::Key;
use crate::parts::Parts;
use isle_core::{BindingId, Constraint, Term, TermId, TermKind, TupleIndex, TypeId, VariantId};

/// What a term makes.
#[derive(Clone, Copy)]
pub enum Made {
    Variant { ty: TypeId, variant: VariantId },
    Struct { ty: TypeId },
}

impl Made {
    /// Returns the test of such a value.
    pub fn constraint(self) -> Constraint
        ensures { result ≡ constraint_of self }
    {
        match self {
            Made::Variant { ty, variant } => Constraint::Variant { ty, variant },
            Made::Struct { ty } => Constraint::Struct { ty },
        }
    }

    /// Returns the key of a field of such a value.
    pub fn field(self, source: BindingId, field: TupleIndex) -> Key
        ensures { result ≡ field_key self source field }
    {
        match self {
            Made::Variant { variant, .. } => Key::MatchVariant {
                source,
                variant,
                field,
            },
            Made::Struct { .. } => Key::ExtractStruct { source, field },
        }
    }

    /// Returns the key of such a value with these fields.
    pub fn whole(self, fields: Parts) -> Key
        ensures { result ≡ whole_key self fields }
    {
        match self {
            Made::Variant { ty, variant } => Key::MakeVariant {
                ty,
                variant,
                fields,
            },
            Made::Struct { ty } => Key::MakeStruct { ty, fields },
        }
    }
}

/// Returns what a term makes, if it makes something.
pub fn made_by(terms: &[Term], term: TermId) -> Option<Made>
    ensures { seen result ≡ making_in terms.now term }
{
    match terms.get(term.index()) {
        None => None,
        Some(found) => match &found.kind {
            TermKind::Variant { ty, variant } => Some(Made::Variant {
                ty: *ty,
                variant: *variant,
            }),
            TermKind::Struct { ty } => Some(Made::Struct { ty: *ty }),
            TermKind::Decl { .. } => None,
        },
    }
}
