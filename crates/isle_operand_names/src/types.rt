//! The types in statements.

ghost use Rattle.std.specs.Prelude.{◌≡◌, ◌++◌, map, OnOk};
ghost use Rattle.isle_tree.specs.Views.{stmt, body, arms};
ghost use Rattle.isle_operand_names.specs.Occurring as types_of;

use isle_core::List;
use isle_tree::{Stmt, TExpr, TPat};
use std::alloc::AllocError;

// Appends the type of a made value.
fn push_computed<'a>(names: &mut Vec<&'a str>, computed: &'a TExpr) -> Result<(), AllocError>
    ensures { OnOk result
        (map (λ x. x.now) names.new.items
        ≡ map (λ x. x.now) names.old.items ++ types_of.expr_types computed.now) }
{
    match computed {
        TExpr::Variant { ty, .. } | TExpr::Struct { ty, .. } => Ok(names.push(ty.as_str())?),
        TExpr::Read(_)
        | TExpr::Call { .. }
        | TExpr::Some(_)
        | TExpr::Try { .. }
        | TExpr::Tuple(..) => Ok(()),
    }
}

// Appends the type whose variant or struct a pattern is.
fn push_pattern<'a>(names: &mut Vec<&'a str>, pat: &'a TPat) -> Result<(), AllocError>
    ensures { OnOk result
        (map (λ x. x.now) names.new.items
        ≡ map (λ x. x.now) names.old.items ++ types_of.pattern_types pat.now) }
{
    match pat {
        TPat::Variant { ty, .. } | TPat::Struct { ty, .. } => Ok(names.push(ty.as_str())?),
        TPat::Const(_) | TPat::Some(_) => Ok(()),
    }
}

// Appends the types in the patterns of arms.
fn push_patterns<'a>(
    names: &mut Vec<&'a str>,
    given: &'a [(TPat, List<Stmt>)],
) -> Result<(), AllocError>
    ensures { OnOk result
        (map (λ x. x.now) names.new.items
        ≡ map (λ x. x.now) names.old.items ++ types_of.arms_types (arms given.now)) }
{
    for arm in given {
        push_pattern(names, &arm.0)?;
    }
    Ok(())
}

// Appends the types in a statement.
#[cycle(typing)]
#[tactic(auto, using(isle_tree::proofs::Sees::sees))]
fn push_statement<'a>(names: &mut Vec<&'a str>, statement: &'a Stmt) -> Result<(), AllocError>
    ensures { OnOk result
        (map (λ x. x.now) names.new.items
        ≡ map (λ x. x.now) names.old.items ++ types_of.stmt_types (stmt statement.now)) }
{
    match statement {
        Stmt::Let(_, computed) | Stmt::Return(computed) => push_computed(names, computed),
        Stmt::IfLet(pat, _, inside) => {
            push_pattern(names, pat)?;
            push_types(names, inside.as_slice())
        }
        Stmt::Match(_, given) => {
            push_patterns(names, given.as_slice())?;
            for arm in given.as_slice() {
                push_types(names, arm.1.as_slice())?;
            }
            Ok(())
        }
        Stmt::IfEq(_, _, inside) => push_types(names, inside.as_slice()),
        Stmt::Loop { body, .. } | Stmt::Split { body, .. } => push_types(names, body.as_slice()),
        Stmt::LetList { .. }
        | Stmt::Extend(_)
        | Stmt::Overflow { .. }
        | Stmt::Log { .. }
        | Stmt::Tail(_) => Ok(()),
    }
}

/// Appends the types in statements, in order. The only error is want of memory.
#[cycle(typing)]
pub fn push_types<'a>(names: &mut Vec<&'a str>, statements: &'a [Stmt]) -> Result<(), AllocError>
    ensures { OnOk result
        (map (λ x. x.now) names.new.items
        ≡ map (λ x. x.now) names.old.items ++ types_of.all_types (body statements.now)) }
{
    for statement in statements {
        push_statement(names, statement)?;
    }
    Ok(())
}
