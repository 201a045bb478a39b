//! The declared types of a program, by their names.

ghost use Rattle.std.specs.Prelude.{◌≡◌, ℕ, List, IfOk, option_map};
ghost use Rattle.isle_places.specs.DeclaredTypes.{type_item, struct_fields, variant_fields};
ghost use Rattle.isle_places.specs.Types.{at_variant, FindsItems, FindsVariants};

use crate::fields::FieldsByName;
use isle_core::Text;
use isle_tree::{TFields, TypeBody, TypeItem};
use std::alloc::{AllocError, Global};
use std::collections::BTreeMap;
use std::marker::Model;

/// A declared type: a struct with its fields, or an enum whose variants are found by their names.
#[derive(Drop)]
pub struct Declared<'p> {
    item: &'p TypeItem,
    own: Option<FieldsByName<'p>>,
    variants: BTreeMap<&'p str, FieldsByName<'p>>,
}

impl<'p> Model for Declared<'p> {
    ghost use Rattle.isle_tree.specs.declared.tree.TypeItem.{TypeItem};
    ghost use Rattle.isle_places.specs.Types.{at_variant};
    ghost use Rattle.isle_places.specs.DeclaredTypes.{struct_fields, variant_fields};
    ghost use Rattle.std.specs.Prelude.{◌≡◌, ℕ, List};

    ghost Value = { TypeItem };

    ghost view = { λ d. d.item.now };

    ghost invariant = { λ d. (d.own ≡ struct_fields d.item.now.body)
        × ((name : List ℕ) → at_variant d.variants name ≡ variant_fields d.item.now.body name) };
}

/// The declared types, each found by its name.
#[derive(Drop)]
pub struct Types<'p> {
    items: &'p [TypeItem],
    found: BTreeMap<&'p str, Declared<'p>>,
}

impl<'p> Model for Types<'p> {
    ghost use Rattle.std.specs.Prelude.{List};
    ghost use Rattle.isle_tree.specs.declared.tree.TypeItem.{TypeItem};
    ghost use Rattle.isle_places.specs.Types.{FindsItems};

    ghost Value = { List TypeItem };

    ghost view = { λ t. t.items.now };

    ghost invariant = { λ t. FindsItems t.items.now t.found };
}

// The fields of variants by their names, of each name the first.
fn by_variant<'p>(
    alloc: Global,
    variants: &'p [(Text, TFields)],
) -> Result<BTreeMap<&'p str, FieldsByName<'p>>, AllocError>
    ensures { IfOk result (λ found. FindsVariants variants.now found) }
{
    let mut found = BTreeMap::new(alloc);
    for index in (0..variants.len()).rev() {
        let variant = &variants[index];
        let fields = FieldsByName::new(alloc, &variant.1)?;
        found.insert(variant.0.as_str(), fields)?;
    }
    Ok(found)
}

// The fields of a struct.
fn own_fields<'p>(alloc: Global, body: &'p TypeBody) -> Result<Option<FieldsByName<'p>>, AllocError>
    ensures { IfOk result (λ own. own ≡ struct_fields body.now) }
{
    match body {
        TypeBody::Enum(_) => Ok(None),
        TypeBody::Struct(fields) => Ok(Some(FieldsByName::new(alloc, fields)?)),
    }
}

// The variants of an enum.
fn own_variants<'p>(
    alloc: Global,
    body: &'p TypeBody,
) -> Result<BTreeMap<&'p str, FieldsByName<'p>>, AllocError>
    ensures { IfOk result (λ found.
        (name : List ℕ) → at_variant found name ≡ variant_fields body.now name) }
{
    match body {
        TypeBody::Enum(variants) => by_variant(alloc, variants.as_slice()),
        TypeBody::Struct(_) => Ok(BTreeMap::new(alloc)),
    }
}

impl<'p> Declared<'p> {
    // Finds the fields and the variants of a type by their names.
    fn new(alloc: Global, item: &'p TypeItem) -> Result<Declared<'p>, AllocError>
        ensures { IfOk result (λ d. d ≡ item.now) }
    {
        let own = own_fields(alloc, &item.body)?;
        let variants = own_variants(alloc, &item.body)?;
        Ok(Declared {
            item,
            own,
            variants,
        })
    }

    /// Returns the fields of the type, if it is a struct.
    pub fn own(&self) -> Option<&FieldsByName<'p>>
        ensures { option_map (λ fs. fs.now) result ≡ struct_fields self.now.body }
    {
        self.own.as_ref()
    }

    /// Returns the fields of the variant of this name, if the type is an enum that has it.
    pub fn variant(&self, name: &str) -> Option<&FieldsByName<'p>>
        ensures { option_map (λ fs. fs.now) result ≡ variant_fields self.now.body name.now }
    {
        self.variants.get(name)
    }
}

// The types by their names, of each name the first.
fn by_name<'p>(
    alloc: Global,
    items: &'p [TypeItem],
) -> Result<BTreeMap<&'p str, Declared<'p>>, AllocError>
    ensures { IfOk result (λ found. FindsItems items.now found) }
{
    let mut found = BTreeMap::new(alloc);
    for index in (0..items.len()).rev() {
        let item = &items[index];
        let declared = Declared::new(alloc, item)?;
        found.insert(item.name.as_str(), declared)?;
    }
    Ok(found)
}

impl<'p> Types<'p> {
    /// Finds the types by their names. The only error is want of memory.
    pub fn new(alloc: Global, items: &'p [TypeItem]) -> Result<Types<'p>, AllocError>
        ensures { IfOk result (λ t. t ≡ items.now) }
    {
        let found = by_name(alloc, items)?;
        Ok(Types { items, found })
    }

    /// Returns the type of this name.
    pub fn named(&self, name: &str) -> Option<&Declared<'p>>
        ensures { option_map (λ d. d.now) result ≡ type_item self.now name.now }
    {
        self.found.get(name)
    }
}
