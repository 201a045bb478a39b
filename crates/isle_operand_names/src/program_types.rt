//! The types that occur in a program, as a set.

ghost use Rattle.std.specs.Prelude.{◌≡◌, ◌++◌, ℕ, List, map, flat_map, IfOk, OnOk};
ghost use Rattle.isle_tree.specs.Views.{function, program};
ghost use Rattle.isle_operand_names.specs.Occurring as types_of;
ghost use Rattle.isle_operand_names.specs.Occurring.{occurs};
ghost use Rattle.isle_operand_names.specs.Sets.{has_name};

use crate::sets::set_of;
use crate::types::push_types;
use isle_core::Text;
use isle_tree::{Function, Program, TFields, TraitFn, Ty, TypeBody, TypeItem};
use std::alloc::{AllocError, Global};
use std::collections::BTreeSet;

// Appends names.
fn push_texts<'a>(names: &mut Vec<&'a str>, tys: &'a [Text]) -> Result<(), AllocError>
    ensures { OnOk result
        (map (λ x. x.now) names.new.items ≡ map (λ x. x.now) names.old.items ++ tys.now) }
{
    for ty in tys {
        names.push(ty.as_str())?;
    }
    Ok(())
}

// Appends the types of named fields.
fn push_named<'a>(names: &mut Vec<&'a str>, fields: &'a [(Text, Text)]) -> Result<(), AllocError>
    ensures { OnOk result
        (map (λ x. x.now) names.new.items
        ≡ map (λ x. x.now) names.old.items ++ types_of.second_names fields.now) }
{
    for field in fields {
        names.push(field.1.as_str())?;
    }
    Ok(())
}

// Appends the types of fields.
fn push_shape<'a>(names: &mut Vec<&'a str>, fields: &'a TFields) -> Result<(), AllocError>
    ensures { OnOk result
        (map (λ x. x.now) names.new.items
        ≡ map (λ x. x.now) names.old.items ++ types_of.shape_types fields.now) }
{
    match fields {
        TFields::Unit => Ok(()),
        TFields::Named(named) => push_named(names, named.as_slice()),
        TFields::Tuple(tys) => push_texts(names, tys.as_slice()),
    }
}

// Appends the types of the fields of variants.
fn push_variants<'a>(
    names: &mut Vec<&'a str>,
    variants: &'a [(Text, TFields)],
) -> Result<(), AllocError>
    ensures { OnOk result
        (map (λ x. x.now) names.new.items
        ≡ map (λ x. x.now) names.old.items ++ types_of.variants_types variants.now) }
{
    for variant in variants {
        push_shape(names, &variant.1)?;
    }
    Ok(())
}

// Appends a declared type and those of its fields.
fn push_item<'a>(names: &mut Vec<&'a str>, item: &'a TypeItem) -> Result<(), AllocError>
    ensures { OnOk result
        (map (λ x. x.now) names.new.items
        ≡ map (λ x. x.now) names.old.items ++ types_of.item_types item.now) }
{
    names.push(item.name.as_str())?;
    match &item.body {
        TypeBody::Enum(variants) => push_variants(names, variants.as_slice()),
        TypeBody::Struct(fields) => push_shape(names, fields),
    }
}

// Appends the types of parameters.
fn push_params<'a>(names: &mut Vec<&'a str>, params: &'a [Ty]) -> Result<(), AllocError>
    ensures { OnOk result
        (map (λ x. x.now) names.new.items
        ≡ map (λ x. x.now) names.old.items ++ types_of.param_types params.now) }
{
    for param in params {
        names.push(param.name.as_str())?;
    }
    Ok(())
}

// Appends what a function of the trait takes and answers.
fn push_trait<'a>(names: &mut Vec<&'a str>, f: &'a TraitFn) -> Result<(), AllocError>
    ensures { OnOk result
        (map (λ x. x.now) names.new.items
        ≡ map (λ x. x.now) names.old.items ++ types_of.trait_types f.now) }
{
    push_params(names, f.params.as_slice())?;
    push_texts(names, f.results.as_slice())
}

// Appends what a function takes and gives, and the types in its body.
fn push_function<'a>(names: &mut Vec<&'a str>, f: &'a Function) -> Result<(), AllocError>
    ensures { OnOk result
        (map (λ x. x.now) names.new.items
        ≡ map (λ x. x.now) names.old.items ++ types_of.function_types (function f.now)) }
{
    push_params(names, f.params.as_slice())?;
    names.push(f.result.as_str())?;
    push_types(names, f.body.as_slice())
}

// Appends declared types.
fn push_items<'a>(names: &mut Vec<&'a str>, items: &'a [TypeItem]) -> Result<(), AllocError>
    ensures { OnOk result
        (map (λ x. x.now) names.new.items
        ≡ map (λ x. x.now) names.old.items ++ flat_map types_of.item_types items.now) }
{
    for item in items {
        push_item(names, item)?;
    }
    Ok(())
}

// Appends the types of the functions of the trait.
fn push_traits<'a>(names: &mut Vec<&'a str>, fns: &'a [TraitFn]) -> Result<(), AllocError>
    ensures { OnOk result
        (map (λ x. x.now) names.new.items
        ≡ map (λ x. x.now) names.old.items ++ flat_map types_of.trait_types fns.now) }
{
    for f in fns {
        push_trait(names, f)?;
    }
    Ok(())
}

// Appends the types of functions.
fn push_functions<'a>(names: &mut Vec<&'a str>, fns: &'a [Function]) -> Result<(), AllocError>
    ensures { OnOk result
        (map (λ x. x.now) names.new.items
        ≡ map (λ x. x.now) names.old.items
        ++ flat_map types_of.function_types (map function fns.now)) }
{
    for f in fns {
        push_function(names, f)?;
    }
    Ok(())
}

/// Gathers the types that occur in a program. The only error is want of memory.
pub fn occurring<'p>(alloc: Global, p: &'p Program) -> Result<BTreeSet<&'p str>, AllocError>
    ensures { IfOk result (λ found.
        (name : List ℕ) → has_name found name ≡ occurs (program p.now) name) }
{
    let mut names = Vec::new(alloc);
    push_items(&mut names, p.types.as_slice())?;
    push_traits(&mut names, p.trait_fns.as_slice())?;
    push_functions(&mut names, p.fns.as_slice())?;
    set_of(alloc, names.as_slice())
}
