//! The functions of the trait.

ghost use Rattle.std.specs.Prelude.{◌≡◌, IfOk, OnOk};
ghost use Rattle.isle_core.specs.RuleViews.{environment};
ghost use Rattle.isle_simulation.specs.TraitFns as TraitFns;
ghost use Rattle.isle_operands.specs.Views.{IsPushed};

use crate::signature::{params, sym_name, ty_name, ty_names};
use isle_core::{List, ReturnKind, Sym, Term, TermEnv, TypeEnv, kind_of};
use isle_tree::TraitFn;
use std::alloc::{AllocError, Global};

// Makes the function of this symbol that makes what a term gives.
fn constructor_fn(
    alloc: Global,
    typeenv: &TypeEnv,
    termenv: &TermEnv,
    term: &Term,
    func: Sym,
) -> Result<TraitFn, AllocError>
    ensures { IfOk result (λ f.
        f ≡ TraitFns.constructor_fn (environment typeenv.now termenv.now) term.now func) }
{
    let result = ty_name(alloc, typeenv, term.ret_ty)?;
    Ok(TraitFn {
        name: sym_name(alloc, typeenv, func)?,
        params: List::new(params(alloc, typeenv, termenv, term.arg_tys.as_slice())?),
        results: List::new(vec![in alloc; result]?),
        kind: kind_of(&term.kind),
    })
}

// Makes the function of this symbol that takes what a term gives apart.
fn extractor_fn(
    alloc: Global,
    typeenv: &TypeEnv,
    termenv: &TermEnv,
    term: &Term,
    extracted: (Sym, ReturnKind),
) -> Result<TraitFn, AllocError>
    ensures { IfOk result (λ f.
        f ≡ TraitFns.extractor_fn (environment typeenv.now termenv.now) term.now extracted) }
{
    let matched = [term.ret_ty];
    Ok(TraitFn {
        name: sym_name(alloc, typeenv, extracted.0)?,
        params: List::new(params(alloc, typeenv, termenv, &matched)?),
        results: List::new(ty_names(alloc, typeenv, termenv, term.arg_tys.as_slice())?),
        kind: extracted.1,
    })
}

// Adds the function of a term's external extractor, if it has one.
fn push_extractor(
    alloc: Global,
    typeenv: &TypeEnv,
    termenv: &TermEnv,
    term: &Term,
    fns: &mut Vec<TraitFn>,
) -> Result<(), AllocError>
    ensures { OnOk result
        (IsPushed fns.old.items fns.new.items
        (TraitFns.extractor_fn_of (environment typeenv.now termenv.now) term.now)) }
{
    if let Some(of) = term.taker() {
        fns.push(extractor_fn(alloc, typeenv, termenv, term, of)?)?;
    }
    Ok(())
}

// Adds the function of a term's external constructor, if it has one.
fn push_constructor(
    alloc: Global,
    typeenv: &TypeEnv,
    termenv: &TermEnv,
    term: &Term,
    fns: &mut Vec<TraitFn>,
) -> Result<(), AllocError>
    ensures { OnOk result
        (IsPushed fns.old.items fns.new.items
        (TraitFns.constructor_fn_of (environment typeenv.now termenv.now) term.now)) }
{
    if let Some(func) = term.maker() {
        fns.push(constructor_fn(alloc, typeenv, termenv, term, func)?)?;
    }
    Ok(())
}

/// Makes the functions of the environment's terms, in order: of each term that of its external extractor, then that of
/// its external constructor. Fails for want of memory alone.
pub fn trait_fns(
    alloc: Global,
    typeenv: &TypeEnv,
    termenv: &TermEnv,
) -> Result<Vec<TraitFn>, AllocError>
    ensures { IfOk result (λ fns.
        fns.items ≡ TraitFns.trait_fns_of (environment typeenv.now termenv.now)) }
{
    let mut fns = Vec::new(alloc);
    for term in termenv.terms.as_slice() {
        push_extractor(alloc, typeenv, termenv, term, &mut fns)?;
        push_constructor(alloc, typeenv, termenv, term, &mut fns)?;
    }
    Ok(fns)
}
