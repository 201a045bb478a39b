//! Whether items have different names: the functions of the program, those of the trait, and the types.

ghost use Rattle.std.specs.Prelude.{IfOk, IsTrue, ◌↔◌, map};
ghost use Rattle.std.specs.List.{IsDistinct};
ghost use Rattle.std.specs.Str.{bytes_eq};
ghost use Rattle.isle_tree.specs.Views.{function};
ghost use Rattle.isle_tree.specs.WellFormed.{terms, fn_names, declared_names};

use crate::tree::{Function, TraitFn, TypeItem};
use isle_core::OutOfMemory;
use std::alloc::Global;
use std::collections::BTreeSet;

/// Tells whether no two functions are of one term. The only error is want of memory.
pub fn are_distinct(alloc: Global, fns: &[Function]) -> Result<bool, OutOfMemory>
    ensures { IfOk result (λ b. IsTrue b ↔ IsDistinct bytes_eq (terms (map function fns.now))) }
{
    let mut seen: BTreeSet<&str> = BTreeSet::new(alloc);
    for f in fns {
        if !seen.insert(f.term.as_str())? {
            return Ok(false);
        }
    }
    Ok(true)
}

/// Tells whether no two functions of the trait have one name. The only error is want of memory.
pub fn are_apart(alloc: Global, fns: &[TraitFn]) -> Result<bool, OutOfMemory>
    ensures { IfOk result (λ b. IsTrue b ↔ IsDistinct bytes_eq (fn_names fns.now)) }
{
    let mut seen: BTreeSet<&str> = BTreeSet::new(alloc);
    for f in fns {
        if !seen.insert(f.name.as_str())? {
            return Ok(false);
        }
    }
    Ok(true)
}

/// Tells whether no two types have one name. The only error is want of memory.
pub fn are_types_apart(alloc: Global, types: &[TypeItem]) -> Result<bool, OutOfMemory>
    ensures { IfOk result (λ b. IsTrue b ↔ IsDistinct bytes_eq (declared_names types.now)) }
{
    let mut seen: BTreeSet<&str> = BTreeSet::new(alloc);
    for item in types {
        if !seen.insert(item.name.as_str())? {
            return Ok(false);
        }
    }
    Ok(true)
}
