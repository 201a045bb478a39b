//! The declared types.

ghost use Rattle.std.specs.Prelude.{◌≡◌, ◌++◌, IfOk, OnOk, map, option_to_list, filter_map};
ghost use Rattle.isle_lawful_names.specs.TypeItems.{text_at, named_field, named_shape, tuple_shape, fields_shape};
ghost use Rattle.isle_lawful_names.specs.TypeItems.{variant_item, item_of, type_item, items_in};

use crate::texts::text_at;
use isle_core::{Field, Fields, List, OutOfMemory, Sym, Text, TypeDef, TypeEnv, TypeId, Variant};
use isle_tree::{TFields, TypeBody, TypeItem};
use std::alloc::{AllocError, Global};

// Named fields, with their types.
fn named_fields(
    alloc: Global,
    types: &TypeEnv,
    given: &[Field],
) -> Result<Vec<(Text, Text)>, AllocError>
    ensures { IfOk result (λ fields. fields.items ≡ map (named_field types.now) given.now) }
{
    let mut fields = Vec::with_capacity(alloc, given.len())?;
    for field in given {
        let name = Text::copied(alloc, types.symbol(field.name))?;
        let ty = Text::copied(alloc, text_at(types, field.ty))?;
        fields.push((name, ty))?;
    }
    Ok(fields)
}

// The names of types.
fn texts(alloc: Global, types: &TypeEnv, given: &[TypeId]) -> Result<Vec<Text>, AllocError>
    ensures { IfOk result (λ texts. texts.items ≡ map (text_at types.now) given.now) }
{
    let mut texts = Vec::with_capacity(alloc, given.len())?;
    for ty in given {
        texts.push(Text::copied(alloc, text_at(types, *ty))?)?;
    }
    Ok(texts)
}

// The shape of named fields.
fn named_shape(alloc: Global, types: &TypeEnv, given: &[Field]) -> Result<TFields, AllocError>
    ensures { IfOk result (λ shape. shape ≡ named_shape types.now given.now) }
{
    match given {
        [] => Ok(TFields::Unit),
        [_, ..] => Ok(TFields::Named(List::new(named_fields(alloc, types, given)?))),
    }
}

// The shape of fields without names.
fn tuple_shape(alloc: Global, types: &TypeEnv, given: &[TypeId]) -> Result<TFields, AllocError>
    ensures { IfOk result (λ shape. shape ≡ tuple_shape types.now given.now) }
{
    match given {
        [] => Ok(TFields::Unit),
        [_, ..] => Ok(TFields::Tuple(List::new(texts(alloc, types, given)?))),
    }
}

// The shape of the fields of a variant or a struct.
fn fields_shape(alloc: Global, types: &TypeEnv, fields: &Fields) -> Result<TFields, AllocError>
    ensures { IfOk result (λ shape. shape ≡ fields_shape types.now fields.now) }
{
    match fields {
        Fields::Unit => Ok(TFields::Unit),
        Fields::Struct(named) => named_shape(alloc, types, named.as_slice()),
        Fields::Tuple(tys) => tuple_shape(alloc, types, tys.as_slice()),
    }
}

// The variants of an enum.
fn variant_items(
    alloc: Global,
    types: &TypeEnv,
    given: &[Variant],
) -> Result<Vec<(Text, TFields)>, AllocError>
    ensures { IfOk result (λ variants. variants.items ≡ map (variant_item types.now) given.now) }
{
    let mut variants = Vec::with_capacity(alloc, given.len())?;
    for variant in given {
        let name = Text::copied(alloc, types.symbol(variant.name))?;
        let fields = fields_shape(alloc, types, &variant.fields)?;
        variants.push((name, fields))?;
    }
    Ok(variants)
}

// A type of this name that is made of this.
fn item_of(
    alloc: Global,
    types: &TypeEnv,
    name: Sym,
    is_nodebug: bool,
    body: TypeBody,
) -> Result<TypeItem, AllocError>
    ensures { IfOk result (λ item. item ≡ item_of types.now name is_nodebug body) }
{
    let name = Text::copied(alloc, types.symbol(name))?;
    Ok(TypeItem {
        name,
        debug: !is_nodebug,
        body,
    })
}

// The declared type of an enum or a struct that is not extern.
fn type_item(alloc: Global, types: &TypeEnv, def: &TypeDef) -> Result<Option<TypeItem>, AllocError>
    ensures { IfOk result (λ item. item ≡ type_item types.now def.now) }
{
    match def {
        TypeDef::Enum {
            name,
            is_extern,
            is_nodebug,
            variants,
            ..
        } => {
            if *is_extern {
                return Ok(None);
            }
            let variants = List::new(variant_items(alloc, types, variants.as_slice())?);
            let item = item_of(alloc, types, *name, *is_nodebug, TypeBody::Enum(variants))?;
            Ok(Some(item))
        }
        TypeDef::Struct {
            name,
            is_extern,
            is_nodebug,
            fields,
            ..
        } => {
            if *is_extern {
                return Ok(None);
            }
            let fields = fields_shape(alloc, types, fields)?;
            let item = item_of(alloc, types, *name, *is_nodebug, TypeBody::Struct(fields))?;
            Ok(Some(item))
        }
        TypeDef::Builtin(_) | TypeDef::Primitive { .. } => Ok(None),
    }
}

// Adds a type, if there is one.
fn push_some(items: &mut Vec<TypeItem>, found: Option<TypeItem>) -> Result<(), AllocError>
    ensures { OnOk result (items.new.items ≡ items.old.items ++ option_to_list found) }
{
    match found {
        Some(item) => {
            items.push(item)?;
            Ok(())
        }
        None => Ok(()),
    }
}

/// Makes the declared types, in order (`specs/TypeItems.antt`). The only error is want of memory.
pub fn type_items(alloc: Global, types: &TypeEnv) -> Result<Vec<TypeItem>, OutOfMemory>
    ensures { IfOk result (λ items. items.items ≡ items_in types.now) }
{
    let mut items = Vec::new(alloc);
    for def in types.types.as_slice() {
        push_some(&mut items, type_item(alloc, types, def)?)?;
    }
    Ok(items)
}
