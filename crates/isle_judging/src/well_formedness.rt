//! Which programs have a text.

ghost use Rattle.std.specs.Prelude.{◌≡◌, IfOk, IsTrue, ◌↔◌, map};
ghost use Rattle.std.specs.List.{AllByRecursion};
ghost use Rattle.isle_tree.specs.Program.{Program as Target};
ghost use Rattle.isle_tree.specs.Views.{program, function};
ghost use Rattle.isle_tree.specs.WellFormed.{callables, IsFunction, IsWellFormed};

use crate::fits::fits_function;
use crate::names::has_names;
use crate::scoped::is_body_scoped;
use crate::shapes::is_body;
use crate::trait_fns::are_trait_fns;
use isle_core::OutOfMemory;
use isle_scope::Table;
use isle_tree::{
    Callables, Function, Program, are_apart, are_distinct, are_type_items, are_types_apart,
};
use std::alloc::Global;

// Whether a function is well formed in a program whose functions may call these, whatever else is in it.
fn is_function(alloc: Global, callees: &Callables, f: &Function) -> Result<bool, OutOfMemory>
    ensures { IfOk result (λ b.
        (p : Target) → callables p ≡ callees.now → IsTrue b ↔ IsFunction p (function f.now)) }
{
    if !has_names(f) {
        return Ok(false);
    }
    let stmts = f.body.as_slice();
    if !is_body(stmts) {
        return Ok(false);
    }
    if !fits_function(f.kind, stmts) {
        return Ok(false);
    }
    let mut bound = Table::new(alloc);
    let params = f.params.as_slice().len();
    Ok(is_body_scoped(callees, f.kind, params, &mut bound, stmts)?)
}

// Whether all functions are.
fn are_functions(alloc: Global, callees: &Callables, fns: &[Function]) -> Result<bool, OutOfMemory>
    ensures { IfOk result (λ b.
        (p : Target) → callables p ≡ callees.now
        → IsTrue b ↔ AllByRecursion (IsFunction p) (map function fns.now)) }
{
    for f in fns {
        if !is_function(alloc, callees, f)? {
            return Ok(false);
        }
    }
    Ok(true)
}

/// Tells whether the program is well formed, and so can be printed. The only error is want of memory.
pub fn well_formed(alloc: Global, p: &Program) -> Result<bool, OutOfMemory>
    ensures { IfOk result (λ b. IsTrue b ↔ IsWellFormed (program p.now)) }
{
    if !are_trait_fns(p.trait_fns.as_slice()) {
        return Ok(false);
    }
    if !are_apart(alloc, p.trait_fns.as_slice())? {
        return Ok(false);
    }
    if !are_type_items(p.types.as_slice()) {
        return Ok(false);
    }
    if !are_types_apart(alloc, p.types.as_slice())? {
        return Ok(false);
    }
    let fns = p.fns.as_slice();
    let callees = Callables::new(alloc, p.trait_fns.as_slice(), fns)?;
    if !are_functions(alloc, &callees, fns)? {
        return Ok(false);
    }
    Ok(are_distinct(alloc, fns)?)
}
