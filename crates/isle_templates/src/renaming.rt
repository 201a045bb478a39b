//! Trees whose variables are numbered by an order.

ghost use Rattle.std.specs.Prelude.{◌≡◌, IfOk, map};
ghost use Rattle.isle_core.specs.RuleViews.{pattern as elaborated_pattern, expr as elaborated_expr};
ghost use Rattle.isle_core.specs.RuleViews.{iflet as elaborated_iflet};
ghost use Rattle.isle_templates.specs.CodeBinding.{binding, binding_renamed};
ghost use Rattle.isle_templates.specs.Renumbered.{renamed, expr_renamed, condition_renamed};

use crate::order::Order;
use isle_core::{Boxed, Expr, IfLet, LetBinding, List, Pattern};
use std::alloc::{AllocError, Global};

/// A pattern with new numbers. The only error is want of memory.
#[cycle(patterns)]
#[tactic(auto, using(isle_core::proofs::SeesRules::sees, crate::proofs::RenamingSteps::patterns_each))]
pub fn renamed(alloc: Global, order: &Order, p: &Pattern) -> Result<Pattern, AllocError>
    ensures { IfOk result (λ q.
        elaborated_pattern q ≡ renamed order.now (elaborated_pattern p.now)) }
{
    match p {
        Pattern::BindPattern(ty, variable, inner) => {
            let inner = Boxed::new(alloc, renamed(alloc, order, inner.get())?)?;
            Ok(Pattern::BindPattern(*ty, order.renumbered(*variable), inner))
        }
        Pattern::Var(ty, variable) => Ok(Pattern::Var(*ty, order.renumbered(*variable))),
        Pattern::ConstBool(b) => Ok(Pattern::ConstBool(*b)),
        Pattern::ConstInt(ty, n) => Ok(Pattern::ConstInt(*ty, *n)),
        Pattern::ConstPrim(ty, name) => Ok(Pattern::ConstPrim(*ty, *name)),
        Pattern::Term(ty, term, parts) => {
            let parts = all_renamed(alloc, order, parts.as_slice())?;
            Ok(Pattern::Term(*ty, *term, List::new(parts)))
        }
        Pattern::Wildcard(ty) => Ok(Pattern::Wildcard(*ty)),
        Pattern::And(ty, parts) => {
            let parts = all_renamed(alloc, order, parts.as_slice())?;
            Ok(Pattern::And(*ty, List::new(parts)))
        }
    }
}

/// Patterns with new numbers, in order. The only error is want of memory.
#[cycle(patterns)]
pub fn all_renamed(
    alloc: Global,
    order: &Order,
    parts: &[Pattern],
) -> Result<Vec<Pattern>, AllocError>
    ensures { IfOk result (λ qs.
        map elaborated_pattern qs.items
        ≡ map (renamed order.now) (map elaborated_pattern parts.now)) }
{
    let mut found = Vec::with_capacity(alloc, parts.len())?;
    for p in parts {
        found.push(renamed(alloc, order, p)?)?;
    }
    Ok(found)
}

/// An expression with new numbers. The only error is want of memory.
#[cycle(exprs)]
#[tactic(auto, using(crate::proofs::SeesLets::sees, crate::proofs::RenamingSteps::exprs_each, crate::proofs::RenamingSteps::bindings_each))]
pub fn expr_renamed(alloc: Global, order: &Order, e: &Expr) -> Result<Expr, AllocError>
    ensures { IfOk result (λ d.
        elaborated_expr d ≡ expr_renamed order.now (elaborated_expr e.now)) }
{
    match e {
        Expr::Term(ty, term, args) => {
            let args = exprs_renamed(alloc, order, args.as_slice())?;
            Ok(Expr::Term(*ty, *term, List::new(args)))
        }
        Expr::Var(ty, variable) => Ok(Expr::Var(*ty, order.renumbered(*variable))),
        Expr::ConstBool(b) => Ok(Expr::ConstBool(*b)),
        Expr::ConstInt(ty, n) => Ok(Expr::ConstInt(*ty, *n)),
        Expr::ConstPrim(ty, name) => Ok(Expr::ConstPrim(*ty, *name)),
        Expr::Let(ty, bindings, inner) => {
            let inner = Boxed::new(alloc, expr_renamed(alloc, order, inner.get())?)?;
            let bindings = bindings_renamed(alloc, order, bindings.as_slice())?;
            Ok(Expr::Let(*ty, List::new(bindings), inner))
        }
    }
}

// Expressions with new numbers, in order.
#[cycle(exprs)]
fn exprs_renamed(alloc: Global, order: &Order, args: &[Expr]) -> Result<Vec<Expr>, AllocError>
    ensures { IfOk result (λ ds.
        map elaborated_expr ds.items
        ≡ map (expr_renamed order.now) (map elaborated_expr args.now)) }
{
    let mut found = Vec::with_capacity(alloc, args.len())?;
    for e in args {
        found.push(expr_renamed(alloc, order, e)?)?;
    }
    Ok(found)
}

// Variables of a `let` with new numbers, and with them in their values.
#[cycle(exprs)]
fn bindings_renamed(
    alloc: Global,
    order: &Order,
    bindings: &[LetBinding],
) -> Result<Vec<LetBinding>, AllocError>
    ensures { IfOk result (λ bs.
        map binding bs.items ≡ map (binding_renamed order.now) (map binding bindings.now)) }
{
    let mut found = Vec::with_capacity(alloc, bindings.len())?;
    for b in bindings {
        let val = expr_renamed(alloc, order, &b.val)?;
        let var = order.renumbered(b.var);
        found.push(LetBinding { var, ty: b.ty, val })?;
    }
    Ok(found)
}

/// Conditions with new numbers, in order. The only error is want of memory.
pub fn iflets_renamed(
    alloc: Global,
    order: &Order,
    iflets: &[IfLet],
) -> Result<Vec<IfLet>, AllocError>
    ensures { IfOk result (λ cs.
        map elaborated_iflet cs.items
        ≡ map (condition_renamed order.now) (map elaborated_iflet iflets.now)) }
{
    let mut found = Vec::with_capacity(alloc, iflets.len())?;
    for condition in iflets {
        let lhs = renamed(alloc, order, &condition.lhs)?;
        let rhs = expr_renamed(alloc, order, &condition.rhs)?;
        found.push(IfLet { lhs, rhs })?;
    }
    Ok(found)
}
