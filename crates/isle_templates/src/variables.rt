//! The variables of rules at the places that may bind them, from left to right.

ghost use Rattle.std.specs.Prelude.{◌≡◌, IfOk, OnOk, fold, flat_map, map};
ghost use Rattle.isle_core.specs.RuleViews.{pattern as elaborated_pattern, patterns_of};
ghost use Rattle.isle_core.specs.RuleViews.{expr as elaborated_expr, exprs_of, bindings_of};
ghost use Rattle.isle_core.specs.RuleViews.{iflet as elaborated_iflet, rule as elaborated_rule};
ghost use Rattle.isle_templates.specs.CodeBinding.{binding};
ghost use Rattle.isle_templates.specs.Renumbered.{pattern_variables, patterns_variables, bound_in};
ghost use Rattle.isle_templates.specs.Renumbered.{all_bound_in, bindings_bound_in, condition_variables};
ghost use Rattle.isle_templates.specs.Renumbered.{joined, order_of};

use crate::order::Order;
use isle_core::{Expr, IfLet, LetBinding, Pattern, Rule};
use std::alloc::{AllocError, Global};

// Joins those of a pattern.
#[cycle(patterns)]
#[tactic(auto, using(isle_core::proofs::SeesRules::sees))]
fn join_pattern(order: &mut Order, p: &Pattern) -> Result<(), AllocError>
    ensures { OnOk result
        (order.new ≡ fold joined order.old (pattern_variables (elaborated_pattern p.now))) }
{
    match p {
        Pattern::BindPattern(_, variable, inner) => {
            order.join(*variable)?;
            join_pattern(order, inner.get())
        }
        Pattern::Var(_, variable) => order.join(*variable),
        Pattern::ConstBool(_) => Ok(()),
        Pattern::ConstInt(_, _) => Ok(()),
        Pattern::ConstPrim(_, _) => Ok(()),
        Pattern::Term(_, _, parts) => join_patterns(order, parts.as_slice()),
        Pattern::Wildcard(_) => Ok(()),
        Pattern::And(_, parts) => join_patterns(order, parts.as_slice()),
    }
}

// Those of patterns, in order.
#[cycle(patterns)]
fn join_patterns(order: &mut Order, parts: &[Pattern]) -> Result<(), AllocError>
    ensures { OnOk result
        (order.new ≡ fold joined order.old
        (patterns_variables (patterns_of (map elaborated_pattern parts.now)))) }
{
    for p in parts {
        join_pattern(order, p)?;
    }
    Ok(())
}

// Those that an expression binds.
#[cycle(exprs)]
#[tactic(auto, using(crate::proofs::SeesLets::sees))]
fn join_expr(order: &mut Order, e: &Expr) -> Result<(), AllocError>
    ensures { OnOk result (order.new ≡ fold joined order.old (bound_in (elaborated_expr e.now))) }
{
    match e {
        Expr::Term(_, _, args) => join_exprs(order, args.as_slice()),
        Expr::Var(_, _) => Ok(()),
        Expr::ConstBool(_) => Ok(()),
        Expr::ConstInt(_, _) => Ok(()),
        Expr::ConstPrim(_, _) => Ok(()),
        Expr::Let(_, bindings, inner) => {
            join_bindings(order, bindings.as_slice())?;
            join_expr(order, inner.get())
        }
    }
}

// Those that expressions bind, in order.
#[cycle(exprs)]
fn join_exprs(order: &mut Order, args: &[Expr]) -> Result<(), AllocError>
    ensures { OnOk result
        (order.new ≡ fold joined order.old
        (all_bound_in (exprs_of (map elaborated_expr args.now)))) }
{
    for e in args {
        join_expr(order, e)?;
    }
    Ok(())
}

// Variables of a `let`, each before those within its value.
#[cycle(exprs)]
fn join_bindings(order: &mut Order, bindings: &[LetBinding]) -> Result<(), AllocError>
    ensures { OnOk result
        (order.new ≡ fold joined order.old
        (bindings_bound_in (bindings_of (map binding bindings.now)))) }
{
    for b in bindings {
        order.join(b.var)?;
        join_expr(order, &b.val)?;
    }
    Ok(())
}

// Those of conditions, in order, those of each one's pattern first.
fn join_iflets(order: &mut Order, iflets: &[IfLet]) -> Result<(), AllocError>
    ensures { OnOk result
        (order.new ≡ fold joined order.old
        (flat_map condition_variables (map elaborated_iflet iflets.now))) }
{
    for condition in iflets {
        join_pattern(order, &condition.lhs)?;
        join_expr(order, &condition.rhs)?;
    }
    Ok(())
}

/// The order in which a rule's variables stand first. The only error is want of memory.
pub fn order_of(alloc: Global, given: &Rule) -> Result<Order, AllocError>
    ensures { IfOk result (λ order. order ≡ order_of (elaborated_rule given.now)) }
{
    let mut order = Order::new(alloc);
    join_patterns(&mut order, given.args.as_slice())?;
    join_iflets(&mut order, given.iflets.as_slice())?;
    join_expr(&mut order, &given.rhs)?;
    Ok(order)
}
