//! Expressions of rule texts.

ghost use Rattle.std.specs.Prelude.{◌≡◌, ◌++◌, OnOk, string_bytes, map, []};
ghost use Rattle.isle_ast.specs.Views.{expr, exprs_of, lets_of};
ghost use Rattle.isle_writing.specs.Text.{expr_text, exprs_text, lets_text, typed_text};
ghost use Rattle.isle_writing.specs.Seen.{bound};

use crate::word::{push_after, push_number, push_truth};
use isle_ast::{AstExpr, AstLet};
use isle_core::Name;
use std::alloc::AllocError;

// Appends a variable and its type, each before a blank, after this and a parenthesis.
fn push_typed(text: &mut String, gap: &str, var: &Name, ty: &Name) -> Result<(), AllocError>
    ensures { OnOk result
        (string_bytes text.new
        ≡ string_bytes text.old ++ typed_text gap.now var.now ty.now) }
{
    text.push_str(gap)?;
    text.push_str("(")?;
    text.push_str(var.as_str())?;
    text.push_str(" ")?;
    text.push_str(ty.as_str())?;
    text.push_str(" ")
}

/// Appends an expression. The only error is want of memory.
#[cycle(pushing)]
#[tactic(auto, using(isle_ast::proofs::Sees::expr_sees))]
pub fn push_expr(text: &mut String, e: &AstExpr<'_>) -> Result<(), AllocError>
    ensures { OnOk result
        (string_bytes text.new ≡ string_bytes text.old ++ expr_text (expr e.now)) }
{
    match e {
        AstExpr::Int(number) => push_number(text, *number),
        AstExpr::Bool(truth) => push_truth(text, *truth),
        AstExpr::Const(name) => push_after(text, "$", name),
        AstExpr::Var(name) => text.push_str(name.as_str()),
        AstExpr::Let(lets, inner) => {
            text.push_str("(let (")?;
            push_lets(text, lets.as_slice())?;
            text.push_str(") ")?;
            push_expr(text, inner.get())?;
            text.push_str(")")
        }
        AstExpr::Term(name, args) => {
            push_after(text, "(", name)?;
            push_exprs(text, args.as_slice())?;
            text.push_str(")")
        }
    }
}

// Appends each expression after a blank.
#[cycle(pushing)]
fn push_exprs(text: &mut String, exprs: &[AstExpr<'_>]) -> Result<(), AllocError>
    ensures { OnOk result
        (string_bytes text.new
        ≡ string_bytes text.old ++ exprs_text (exprs_of (map expr exprs.now))) }
{
    for e in exprs {
        text.push_str(" ")?;
        push_expr(text, e)?;
    }
    Ok(())
}

// Appends the variables of a `let` with blanks between them.
#[cycle(pushing)]
#[tactic(auto, using(crate::proofs::SeesLets::bound_parts))]
fn push_lets(text: &mut String, lets: &[AstLet<'_>]) -> Result<(), AllocError>
    ensures { OnOk result
        (string_bytes text.new
        ≡ string_bytes text.old ++ lets_text [] (lets_of (map bound lets.now))) }
{
    let mut before = "";
    for l in lets {
        push_typed(text, before, &l.var, &l.ty)?;
        push_expr(text, &l.val)?;
        text.push_str(")")?;
        before = " ";
    }
    Ok(())
}
