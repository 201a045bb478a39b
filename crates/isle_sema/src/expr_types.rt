//! The types of expressions where none is expected.

ghost use Rattle.std.specs.Prelude.{◌≡◌, IfOk, OnOk, map};
ghost use Rattle.isle_ast.specs.Views.{expr, lets_of};
ghost use Rattle.isle_declarations.specs.Bindings.{binding};
ghost use Rattle.isle_sema.specs.ExprType.{typed_lets, own_type};
ghost use Rattle.isle_terms.specs.Whole.{whole};
ghost use Rattle.isle_terms.specs.Locals.{locals_of};

use crate::known::{Known, result_type};
use isle_ast::{AstExpr, AstLet};
use isle_core::TypeId;
use isle_terms::{Locals, type_named};
use std::alloc::AllocError;

// Binds the variables of a `let` at the types that are written.
fn bind_each<'b, 'd>(
    known: &Known,
    vars: &mut Locals<'_, 'b, 'd>,
    lets: &'b [AstLet<'d>],
) -> Result<(), AllocError>
    ensures { OnOk result
        (locals_of vars.new
        ≡ typed_lets (whole known.now) (locals_of vars.old) (lets_of (map binding lets.now))) }
{
    for l in lets {
        vars.bind(&l.var, type_named(known.before, &l.ty), 0)?;
    }
    Ok(())
}

/// Returns the type of an expression where none is expected (`specs/ExprType.antt`): it hangs on no fault of its parts.
/// The variables of its `let`s are left in scope. The only error is want of memory.
#[cycle(types)]
#[tactic(auto, using(isle_ast::proofs::Sees::expr_sees))]
pub fn own_type<'b, 'd>(
    known: &Known,
    vars: &mut Locals<'_, 'b, 'd>,
    e: &'b AstExpr<'d>,
) -> Result<Option<TypeId>, AllocError>
    ensures { IfOk result (λ ty.
        ty ≡ own_type (whole known.now) (locals_of vars.old) (expr e.now)) }
{
    match e {
        AstExpr::Int(_) => Ok(None),
        AstExpr::Bool(_) => Ok(Some(TypeId(0))),
        AstExpr::Var(name) => match vars.find(name) {
            Some((ty, _)) => Ok(ty),
            None => Ok(None),
        },
        AstExpr::Term(name, _) => Ok(result_type(&known.called(name))),
        AstExpr::Const(name) => Ok(known.constant(name)),
        AstExpr::Let(lets, inner) => {
            bind_each(known, vars, lets.as_slice())?;
            own_type(known, vars, inner.get())
        }
    }
}
