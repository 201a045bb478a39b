//! Conditions with types in them.

ghost use Rattle.std.specs.Prelude.{◌≡◌, IfOk, map, option_map};
ghost use Rattle.isle_terms.specs.Locals.{of_patterns};
ghost use Rattle.isle_ast.specs.Views.{expr, iflet};
ghost use Rattle.isle_core.specs.RuleViews.{pattern as elaborated_pattern, expr as elaborated_expr};
ghost use Rattle.isle_sema.specs.ElaboratedAt.{condition_tree, IsExprOver, IsConditionAt, AreConditionsAt};
ghost use Rattle.isle_sema.specs.ExprType.{own_type};
ghost use Rattle.isle_sema.specs.RulePass.{iflet_tree};
ghost use Rattle.isle_terms.specs.Whole.{whole};

use crate::elaborated_exprs::expr_at;
use crate::elaborated_patterns::pattern_at;
use crate::expr_types::own_type;
use crate::judging::Judging;
use crate::known::Known;
use isle_ast::{AstExpr, AstIfLet};
use isle_core::{Expr, IfLet, Pattern, TypeId};
use isle_terms::{Locals, Variables, new_count};
use std::alloc::{AllocError, Global};

/// Elaborates an expression over the variables of patterns, from this number on; returns the next number after it.
pub fn expr_over<'b, 'd>(
    alloc: Global,
    known: &Known,
    vars: &Variables<'b>,
    judged: &mut Judging<'_, 'b, 'd>,
    next: usize,
    expected: Option<TypeId>,
    e: &'b AstExpr<'d>,
) -> Result<(Option<Expr>, usize), AllocError>
    ensures { IfOk result (λ found.
        IsExprOver (whole known.now) expected (expr e.now) vars.now next judged.old.rows
        judged.new.rows found) }
{
    let mut locals = Locals::new(alloc, vars, next);
    let found = expr_at(alloc, known, &mut locals, judged, expected, e)?;
    Ok((found, locals.next()))
}

// The type of an expression over the variables of patterns, where none is expected.
fn type_over<'b, 'd>(
    alloc: Global,
    known: &Known,
    vars: &Variables<'b>,
    e: &'b AstExpr<'d>,
) -> Result<Option<TypeId>, AllocError>
    ensures { IfOk result (λ ty.
        ty ≡ own_type (whole known.now) (of_patterns vars.now) (expr e.now)) }
{
    let mut locals = Locals::new(alloc, vars, 0);
    own_type(known, &mut locals, e)
}

// A condition of these parts, if both are there.
fn condition_of(lhs: Option<Pattern>, rhs: Option<Expr>) -> Option<IfLet>
    ensures { condition_tree result
        ≡ iflet_tree (option_map elaborated_pattern lhs) (option_map elaborated_expr rhs) }
{
    let lhs = lhs?;
    let rhs = rhs?;
    Some(IfLet { lhs, rhs })
}

// A condition: its expression, over the variables before it, and then its pattern.
fn condition_at<'b, 'd>(
    alloc: Global,
    known: &Known,
    vars: &mut Variables<'b>,
    judged: &mut Judging<'_, 'b, 'd>,
    given: &'b AstIfLet<'d>,
) -> Result<Option<IfLet>, AllocError>
    ensures { IfOk result (λ found.
        IsConditionAt (whole known.now) (iflet given.now) vars.old vars.new judged.old.rows
        judged.new.rows found) }
{
    let count = new_count(alloc, vars, &given.lhs)?;
    let Some(next) = vars.next().checked_add(count) else {
        return Err(AllocError);
    };
    let (rhs, after) = expr_over(alloc, known, vars, judged, next, None, &given.rhs)?;
    let ty = type_over(alloc, known, vars, &given.rhs)?;
    let lhs = pattern_at(alloc, known, vars, judged, ty, &given.lhs)?;
    vars.leave(after);
    Ok(condition_of(lhs, rhs))
}

/// Elaborates conditions in order, each over the variables before it: gives their trees, if all have one.
pub fn conditions_at<'b, 'd>(
    alloc: Global,
    known: &Known,
    vars: &mut Variables<'b>,
    judged: &mut Judging<'_, 'b, 'd>,
    given: &'b [AstIfLet<'d>],
) -> Result<Option<Vec<IfLet>>, AllocError>
    ensures { IfOk result (λ found.
        AreConditionsAt (whole known.now) (map iflet given.now) vars.old vars.new judged.old.rows
        judged.new.rows found) }
{
    let mut made = Vec::with_capacity(alloc, given.len())?;
    let mut complete = true;
    for c in given {
        match condition_at(alloc, known, vars, judged, c)? {
            Some(found) => made.push(found)?,
            None => complete = false,
        }
    }
    Ok(if complete { Some(made) } else { None })
}
