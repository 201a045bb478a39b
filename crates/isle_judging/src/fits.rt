//! Which statements fit the kind of their function.

ghost use Rattle.std.specs.Prelude.{◌≡◌, ◌↔◌, IsTrue};
ghost use Rattle.isle_tree.specs.Views.{stmt, body};
ghost use Rattle.isle_tree.specs.WellFormed.{FitsLet, IsReturned, GivesSeveral, FitsStmt, FitsBody, FitsTail};
ghost use Rattle.isle_tree.specs.WellFormed.{FitsLast, FitsEnding, FitsFunction};

use isle_core::{ReturnKind, Text};
use isle_tree::{Stmt, TExpr};

// Whether a `let` may compute it in a function of the kind.
fn fits_let(kind: ReturnKind, e: &TExpr) -> bool
    ensures { IsTrue result ↔ FitsLet kind e.now }
{
    match e {
        TExpr::Try { .. } => kind == ReturnKind::Option,
        TExpr::Read(_)
        | TExpr::Call { .. }
        | TExpr::Variant { .. }
        | TExpr::Struct { .. }
        | TExpr::Some(_)
        | TExpr::Tuple(..) => true,
    }
}

// Whether a `return` may compute it.
fn is_returned(e: &TExpr) -> bool
    ensures { IsTrue result ↔ IsReturned e.now }
{
    match e {
        TExpr::Read(_) | TExpr::Some(_) => true,
        TExpr::Call { .. }
        | TExpr::Variant { .. }
        | TExpr::Struct { .. }
        | TExpr::Try { .. }
        | TExpr::Tuple(..) => false,
    }
}

// Whether a function of the kind gives several results.
fn gives_several(kind: ReturnKind) -> bool
    ensures { IsTrue result ↔ GivesSeveral kind }
{
    match kind {
        ReturnKind::Plain | ReturnKind::Option => false,
        ReturnKind::Iterator => true,
    }
}

// Whether statements may stop at a full list, or after a closure that did, by this return.
fn fits_stop(kind: ReturnKind, closed: bool, inside: bool) -> bool
    ensures { IsTrue result ↔ (GivesSeveral kind × (inside ≡ closed)) }
{
    if !gives_several(kind) {
        return false;
    }
    inside == closed
}

// Whether a statement may stand inside a function of the kind, or inside a closure of one.
#[cycle(fits)]
#[tactic(auto, using(isle_tree::proofs::Sees::sees))]
fn fits_stmt(kind: ReturnKind, closed: bool, s: &Stmt) -> bool
    ensures { IsTrue result ↔ FitsStmt kind closed (stmt s.now) }
{
    match s {
        Stmt::Let(_, e) => fits_let(kind, e),
        Stmt::IfEq(_, _, inside) | Stmt::IfLet(_, _, inside) | Stmt::Loop { body: inside, .. } =>
            fits_body(kind, closed, inside.as_slice()),
        Stmt::Match(_, given) => {
            for arm in given.as_slice() {
                if !fits_body(kind, closed, arm.1.as_slice()) {
                    return false;
                }
            }
            true
        }
        Stmt::Return(e) => is_returned(e),
        Stmt::Extend(_) => gives_several(kind),
        Stmt::Overflow { inside, .. } => fits_stop(kind, closed, *inside),
        Stmt::LetList { .. } | Stmt::Log { .. } => true,
        Stmt::Split {
            body: split,
            inside,
        } => {
            if !fits_stop(kind, closed, *inside) {
                return false;
            }
            fits_body(kind, true, split.as_slice())
        }
        Stmt::Tail(_) => false,
    }
}

// Whether all statements may.
#[cycle(fits)]
fn fits_body(kind: ReturnKind, closed: bool, stmts: &[Stmt]) -> bool
    ensures { IsTrue result ↔ FitsBody kind closed (body stmts.now) }
{
    for s in stmts {
        if !fits_stmt(kind, closed, s) {
            return false;
        }
    }
    true
}

// Whether a function of the kind may have the tail.
fn fits_tail(kind: ReturnKind, texts: &Option<(Text, Text)>) -> bool
    ensures { IsTrue result ↔ FitsTail kind texts.now }
{
    match (kind, texts) {
        (ReturnKind::Plain, Some(_)) | (ReturnKind::Option, None) => true,
        (ReturnKind::Plain, None) | (ReturnKind::Option, Some(_)) => false,
        (ReturnKind::Iterator, _) => false,
    }
}

// Whether a function of the kind may end with the statement.
#[tactic(auto, using(isle_tree::proofs::Sees::sees))]
fn fits_last(kind: ReturnKind, s: &Stmt) -> bool
    ensures { IsTrue result ↔ FitsLast kind (stmt s.now) }
{
    match s {
        Stmt::Return(e) => is_returned(e),
        Stmt::Tail(texts) => fits_tail(kind, texts),
        Stmt::Let(..)
        | Stmt::IfEq(..)
        | Stmt::LetList { .. }
        | Stmt::IfLet(..)
        | Stmt::Match(..)
        | Stmt::Loop { .. }
        | Stmt::Extend(_)
        | Stmt::Overflow { .. }
        | Stmt::Log { .. }
        | Stmt::Split { .. } => false,
    }
}

// Whether the statements are those of a function that ends with one that is its last.
fn fits_ending(kind: ReturnKind, stmts: &[Stmt]) -> bool
    ensures { IsTrue result ↔ FitsEnding kind (body stmts.now) }
{
    match stmts.split_last() {
        None => false,
        Some((last, front)) => {
            if !fits_body(kind, false, front) {
                return false;
            }
            fits_last(kind, last)
        }
    }
}

/// Tells whether the statements are those of a function of the kind.
pub fn fits_function(kind: ReturnKind, stmts: &[Stmt]) -> bool
    ensures { IsTrue result ↔ FitsFunction kind (body stmts.now) }
{
    match kind {
        ReturnKind::Plain | ReturnKind::Option => fits_ending(kind, stmts),
        ReturnKind::Iterator => fits_body(kind, false, stmts),
    }
}
