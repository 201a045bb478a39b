//! The fields of a struct or a variant, by their names.

ghost use Rattle.std.specs.Prelude.{◌≡◌, IfOk, option_map};
ghost use Rattle.isle_places.specs.DeclaredTypes.{named_type};
ghost use Rattle.isle_places.specs.Types.{FindsFields};

use isle_core::Text;
use isle_tree::TFields;
use std::alloc::{AllocError, Global};
use std::collections::BTreeMap;
use std::marker::Model;

/// The fields of a struct or a variant, whose types are found by their names if they have names.
#[derive(Drop)]
pub struct FieldsByName<'p> {
    fields: &'p TFields,
    named: BTreeMap<&'p str, &'p str>,
}

impl<'p> Model for FieldsByName<'p> {
    ghost use Rattle.std.specs.Prelude.{◌≡◌, ℕ, List};
    ghost use Rattle.isle_tree.specs.declared.tree.TFields.{TFields};
    ghost use Rattle.isle_places.specs.DeclaredTypes.{named_type};
    ghost use Rattle.isle_places.specs.Types.{at_field};

    ghost Value = { TFields };

    ghost view = { λ f. f.fields.now };

    ghost invariant = { λ f. (name : List ℕ)
        → at_field f.named name ≡ named_type f.fields.now name };
}

// The types of named fields by their names, of each name the first.
fn by_field<'p>(
    alloc: Global,
    fields: &'p [(Text, Text)],
) -> Result<BTreeMap<&'p str, &'p str>, AllocError>
    ensures { IfOk result (λ found. FindsFields fields.now found) }
{
    let mut found = BTreeMap::new(alloc);
    for index in (0..fields.len()).rev() {
        let field = &fields[index];
        found.insert(field.0.as_str(), field.1.as_str())?;
    }
    Ok(found)
}

impl<'p> FieldsByName<'p> {
    /// Finds the types of fields by their names. The only error is want of memory.
    pub fn new(alloc: Global, fields: &'p TFields) -> Result<FieldsByName<'p>, AllocError>
        ensures { IfOk result (λ f. f ≡ fields.now) }
    {
        let named = match fields {
            TFields::Named(named) => by_field(alloc, named.as_slice())?,
            TFields::Unit | TFields::Tuple(_) => BTreeMap::new(alloc),
        };
        Ok(FieldsByName { fields, named })
    }

    /// Returns the fields in order.
    pub fn in_order(&self) -> &TFields
        ensures { result.now ≡ self.now }
    {
        self.fields
    }

    /// Returns the type of the field of this name, if the fields have names and one has it.
    pub fn named(&self, name: &str) -> Option<&str>
        ensures { option_map (λ ty. ty.now) result ≡ named_type self.now name.now }
    {
        self.named.get(name).copied()
    }
}
