//! Whether each operand of statements is in scope and holds what is asked of it.

ghost use Rattle.std.specs.Prelude.{◌≡◌, ◌++◌, ◌↔◌, IsTrue, IsSome, IfOk, OnOk};
ghost use Rattle.isle_tree.specs.Views.{stmt, body};
ghost use Rattle.isle_tree.specs.WellFormed.{GivesKind, after_let, read_holds, ReadsPattern, pattern_locals};
ghost use Rattle.isle_tree.specs.WellFormed.{local_holds, each_holds, IsStmtScoped, IsBodyScoped, bound_after};

use crate::binding::enter;
use crate::holding::{
    are_both_values, called_holds, each_holds, expr_holds, is_value, list_holds, local_holds,
    read_holds,
};
use isle_core::ReturnKind;
use isle_scope::Table;
use isle_tree::{Callables, Holds, Item, Read, Stmt, TPat};
use std::alloc::AllocError;

// Whether a return in a function of the kind may give it.
fn gives_kind(kind: ReturnKind, holds: Option<Holds>) -> bool
    ensures { IsTrue result ↔ GivesKind kind holds }
{
    match (kind, holds) {
        (ReturnKind::Plain, Some(Holds::One(Item::Value))) => true,
        (ReturnKind::Option, Some(Holds::Optional(Item::Value))) => true,
        _ => false,
    }
}

// Binds a local to what is computed, if something is.
fn bind(bound: &mut Table<Holds>, local: usize, holds: Option<Holds>) -> Result<bool, AllocError>
    ensures holds { IfOk result (λ b. IsTrue b ↔ IsSome holds) }
    ensures bound { OnOk result (bound.new ≡ after_let holds local bound.old) }
{
    match holds {
        None => Ok(false),
        Some(holds) => {
            bound.bind(local, holds)?;
            Ok(true)
        }
    }
}

// Whether a pattern may be read over what is read, and each operand of the statements after it is in scope. What is
// bound is the same after them.
#[cycle(scoped)]
fn is_arm_scoped(
    callees: &Callables,
    kind: ReturnKind,
    params: usize,
    bound: &mut Table<Holds>,
    pat: &TPat,
    read: &Read,
    inside: &[Stmt],
) -> Result<bool, AllocError>
    ensures scoped { IfOk result (λ b. IsTrue b
        ↔ (ReadsPattern pat.now (read_holds params bound.old read.now)
        × IsBodyScoped callees.now kind params
        (bound.old ++ pattern_locals pat.now (read_holds params bound.old read.now))
        (body inside.now))) }
    ensures bound { OnOk result (bound.new ≡ bound.old) }
{
    let len = bound.len();
    let reads = enter(bound, params, pat, read)?;
    let scoped = is_body_scoped(callees, kind, params, bound, inside)?;
    bound.truncate(len);
    Ok(reads && scoped)
}

// Whether a loop may go over the list, and each operand of the statements inside is in scope. What is bound is the same
// after them.
#[cycle(scoped)]
fn is_loop_scoped(
    callees: &Callables,
    kind: ReturnKind,
    params: usize,
    bound: &mut Table<Holds>,
    list: usize,
    item: usize,
    inside: &[Stmt],
) -> Result<bool, AllocError>
    ensures scoped { IfOk result (λ b. IsTrue b
        ↔ (IsSome (each_holds (local_holds bound.old list))
        × IsBodyScoped callees.now kind params
        (after_let (each_holds (local_holds bound.old list)) item bound.old) (body inside.now))) }
    ensures bound { OnOk result (bound.new ≡ bound.old) }
{
    let len = bound.len();
    let each = each_holds(local_holds(bound, list));
    let listed = bind(bound, item, each)?;
    let scoped = is_body_scoped(callees, kind, params, bound, inside)?;
    bound.truncate(len);
    Ok(listed && scoped)
}

// Whether each operand of a statement is in scope; its own local is bound after it.
#[cycle(scoped)]
#[tactic(auto, using(isle_tree::proofs::Sees::sees))]
fn is_stmt_scoped(
    callees: &Callables,
    kind: ReturnKind,
    params: usize,
    bound: &mut Table<Holds>,
    s: &Stmt,
) -> Result<bool, AllocError>
    ensures scoped { IfOk result (λ b.
        IsTrue b ↔ IsStmtScoped callees.now kind params bound.old (stmt s.now)) }
    ensures bound { OnOk result
        (bound.new ≡ bound_after callees.now params (stmt s.now) bound.old) }
{
    match s {
        Stmt::Let(n, e) => {
            let holds = expr_holds(callees, bound, params, e);
            bind(bound, *n, holds)
        }
        Stmt::IfEq(a, b, inside) => {
            if !are_both_values(bound, params, a, b) {
                return Ok(false);
            }
            is_body_scoped(callees, kind, params, bound, inside.as_slice())
        }
        Stmt::IfLet(pat, read, inside) => {
            is_arm_scoped(callees, kind, params, bound, pat, read, inside.as_slice())
        }
        Stmt::Match(read, given) => {
            for arm in given.as_slice() {
                let inside = arm.1.as_slice();
                if !is_arm_scoped(callees, kind, params, bound, &arm.0, read, inside)? {
                    return Ok(false);
                }
            }
            Ok(true)
        }
        Stmt::Return(e) => Ok(gives_kind(kind, expr_holds(callees, bound, params, e))),
        Stmt::LetList { local, call } => {
            let holds = list_holds(called_holds(callees, bound, params, call));
            bind(bound, *local, holds)
        }
        Stmt::Loop { list, item, body } => {
            is_loop_scoped(callees, kind, params, bound, *list, *item, body.as_slice())
        }
        Stmt::Extend(read) => Ok(is_value(read_holds(bound, params, read))),
        Stmt::Overflow { .. } | Stmt::Log { .. } | Stmt::Tail(_) => Ok(true),
        Stmt::Split { body, .. } => {
            is_body_scoped(callees, kind, params, bound, body.as_slice())
        }
    }
}

/// Tells whether each operand of the statements is in scope and holds what is asked of it. What is bound is the same
/// after them. The only error is want of memory.
#[cycle(scoped)]
pub fn is_body_scoped(
    callees: &Callables,
    kind: ReturnKind,
    params: usize,
    bound: &mut Table<Holds>,
    stmts: &[Stmt],
) -> Result<bool, AllocError>
    ensures scoped { IfOk result (λ b.
        IsTrue b ↔ IsBodyScoped callees.now kind params bound.old (body stmts.now)) }
    ensures bound { OnOk result (bound.new ≡ bound.old) }
{
    let len = bound.len();
    for s in stmts {
        if !is_stmt_scoped(callees, kind, params, bound, s)? {
            bound.truncate(len);
            return Ok(false);
        }
    }
    bound.truncate(len);
    Ok(true)
}
