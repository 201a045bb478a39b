//! Whether statements call only callees that entries answer for.

ghost use Rattle.std.specs.Prelude.{◌≡◌};
ghost use Rattle.std.specs.List.{list_all};
ghost use Rattle.isle_tree.specs.Views.{stmt, body};
ghost use Rattle.isle_tree.specs.Calls.{expr_calls, stmt_calls, body_calls};
ghost use Rattle.isle_interpreter.specs.Served.{has};

use crate::served::Served;
use isle_tree::{Stmt, TExpr};

// Whether what is computed calls none but these.
fn is_computed_within(served: &Served<'_>, computed: &TExpr) -> bool
    ensures { result ≡ list_all (has served.now) (expr_calls computed.now) }
{
    match computed {
        TExpr::Call { call, .. } => served.has(&call.callee),
        TExpr::Read(_)
        | TExpr::Variant { .. }
        | TExpr::Struct { .. }
        | TExpr::Some(_)
        | TExpr::Try { .. }
        | TExpr::Tuple(..) => true,
    }
}

// Whether a statement calls none but these.
#[cycle(within)]
#[tactic(auto, using(isle_tree::proofs::Sees::sees))]
fn is_within(served: &Served<'_>, statement: &Stmt) -> bool
    ensures { result ≡ list_all (has served.now) (stmt_calls (stmt statement.now)) }
{
    match statement {
        Stmt::Let(_, computed) => is_computed_within(served, computed),
        Stmt::LetList { call, .. } => served.has(&call.callee),
        Stmt::IfEq(_, _, inside) => are_within(served, inside.as_slice()),
        Stmt::IfLet(_, _, inside) => are_within(served, inside.as_slice()),
        Stmt::Match(_, arms) => {
            for arm in arms.as_slice() {
                if !are_within(served, arm.1.as_slice()) {
                    return false;
                }
            }
            true
        }
        Stmt::Loop { body, .. } => are_within(served, body.as_slice()),
        Stmt::Return(computed) => is_computed_within(served, computed),
        Stmt::Split { body, .. } => are_within(served, body.as_slice()),
        Stmt::Extend(_) | Stmt::Overflow { .. } | Stmt::Log { .. } | Stmt::Tail(_) => true,
    }
}

/// Tells whether statements call none but these.
#[cycle(within)]
pub fn are_within(served: &Served<'_>, statements: &[Stmt]) -> bool
    ensures { result ≡ list_all (has served.now) (body_calls (body statements.now)) }
{
    for statement in statements {
        if !is_within(served, statement) {
            return false;
        }
    }
    true
}
