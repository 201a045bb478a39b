//! The names in expressions, from left to right.

ghost use Rattle.std.specs.Prelude.{◌≡◌, OnOk, fold, map};
ghost use Rattle.isle_ast.specs.Views.{expr, exprs_of, lets_of};
ghost use Rattle.isle_declarations.specs.Symbols.{added};
ghost use Rattle.isle_declarations.specs.Names.{expr_names, exprs_names, lets_names};
ghost use Rattle.isle_declarations.specs.Bindings.{binding};

use crate::symbols::Symbols;
use crate::text_interning::intern;
use isle_ast::{AstExpr, AstLet};
use std::alloc::AllocError;

/// The names in an expression, a call's own before those of its arguments. The only error is want of memory.
#[cycle(names)]
#[tactic(auto, using(isle_ast::proofs::Sees::expr_sees))]
pub fn intern_expr<'b, 'd>(names: &mut Symbols<'b>, e: &'b AstExpr<'d>) -> Result<(), AllocError>
    ensures { OnOk result (names.new ≡ fold added names.old (expr_names (expr e.now))) }
{
    match e {
        AstExpr::Int(_) => Ok(()),
        AstExpr::Bool(_) => Ok(()),
        AstExpr::Const(name) => intern(names, name),
        AstExpr::Var(name) => intern(names, name),
        AstExpr::Let(lets, inner) => {
            intern_lets(names, lets.as_slice())?;
            intern_expr(names, inner.get())
        }
        AstExpr::Term(name, args) => {
            intern(names, name)?;
            intern_exprs(names, args.as_slice())
        }
    }
}

// The names in expressions, in order.
#[cycle(names)]
fn intern_exprs<'b, 'd>(names: &mut Symbols<'b>, es: &'b [AstExpr<'d>]) -> Result<(), AllocError>
    ensures { OnOk result
        (names.new ≡ fold added names.old (exprs_names (exprs_of (map expr es.now)))) }
{
    for e in es {
        intern_expr(names, e)?;
    }
    Ok(())
}

// The names in variables of a `let`: of each its own, its type's, and those in its value.
#[cycle(names)]
fn intern_lets<'b, 'd>(names: &mut Symbols<'b>, lets: &'b [AstLet<'d>]) -> Result<(), AllocError>
    ensures { OnOk result
        (names.new ≡ fold added names.old (lets_names (lets_of (map binding lets.now)))) }
{
    for l in lets {
        intern(names, &l.var)?;
        intern(names, &l.ty)?;
        intern_expr(names, &l.val)?;
    }
    Ok(())
}
