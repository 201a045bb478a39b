//! The places in statements, and those in functions.

ghost use Rattle.std.specs.Prelude.{◌≡◌, ◌++◌, OnOk};
ghost use Rattle.isle_tree.specs.Views.{function, program, stmt, body};
ghost use Rattle.isle_places.specs.Places.{places, arm_places, stmt_places, body_places, told_after, told_inside};
ghost use Rattle.isle_places.specs.ToldViews.{tells, placed};

use crate::binding::bind_pattern;
use crate::places::{push_at, push_both, push_call, push_computed, push_pattern, push_returned};
use crate::signatures::Signatures;
use crate::told::{Told, expr_told, item_told, list_told, local_told, operand_of, operand_told};
use isle_scope::Table;
use isle_tree::{Function, Operand, Read, Stmt, TPat};
use std::alloc::{AllocError, Global};

// Where a walk goes: a function of a program.
#[derive(Clone, Copy)]
struct Walk<'s, 'p> {
    alloc: Global,
    signatures: &'s Signatures<'p>,
    f: &'s Function,
}

// Appends the places of a pattern, of what it is held against, and in the statements after it.
#[cycle(placing)]
fn push_arm<'s>(
    walk: Walk<'s, '_>,
    bound: &mut Table<Told<'s>>,
    found: &mut Vec<(&'s Operand, &'s str)>,
    pat: &'s TPat,
    read: &'s Read,
    inside: &'s [Stmt],
) -> Result<(), AllocError>
    ensures more { OnOk result (placed found.new.items
        ≡ placed found.old.items
        ++ arm_places (program walk.entry.signatures.now) (function walk.entry.f.now)
        (tells bound.old) pat.now read.now (body inside.now)) }
    ensures kept { OnOk result (tells bound.new ≡ tells bound.old) }
{
    let count = bound.len();
    push_pattern(walk.f, bound, found, pat, read)?;
    let held = operand_told(walk.f, bound, operand_of(read));
    bind_pattern(walk.alloc, walk.signatures, bound, pat, held)?;
    push_body(walk, bound, found, inside)?;
    bound.truncate(count);
    Ok(())
}

// Appends the places in a loop over the items of a list.
#[cycle(placing)]
fn push_loop<'s>(
    walk: Walk<'s, '_>,
    bound: &mut Table<Told<'s>>,
    found: &mut Vec<(&'s Operand, &'s str)>,
    list: usize,
    item: usize,
    inside: &'s [Stmt],
) -> Result<(), AllocError>
    ensures more { OnOk result (placed found.new.items
        ≡ placed found.old.items
        ++ body_places (program walk.entry.signatures.now) (function walk.entry.f.now)
        (told_inside list item (tells bound.old)) (body inside.now)) }
    ensures kept { OnOk result (tells bound.new ≡ tells bound.old) }
{
    let count = bound.len();
    let held = item_told(local_told(bound, list));
    bound.bind(item, held)?;
    push_body(walk, bound, found, inside)?;
    bound.truncate(count);
    Ok(())
}

// Appends the places in a statement; its own local is bound after it.
#[cycle(placing)]
#[tactic(auto, using(isle_tree::proofs::Sees::sees))]
fn push_statement<'s>(
    walk: Walk<'s, '_>,
    bound: &mut Table<Told<'s>>,
    found: &mut Vec<(&'s Operand, &'s str)>,
    statement: &'s Stmt,
) -> Result<(), AllocError>
    ensures more { OnOk result (placed found.new.items
        ≡ placed found.old.items
        ++ stmt_places (program walk.entry.signatures.now) (function walk.entry.f.now)
        (tells bound.old) (stmt statement.now)) }
    ensures after { OnOk result
        (tells bound.new
        ≡ told_after (program walk.entry.signatures.now) (function walk.entry.f.now)
        (tells bound.old) (stmt statement.now)) }
{
    match statement {
        Stmt::Let(local, computed) => {
            push_computed(walk.alloc, walk.signatures, found, computed)?;
            let held = expr_told(walk.signatures, walk.f, bound, computed);
            bound.bind(*local, held)
        }
        Stmt::LetList { local, call } => {
            push_call(walk.signatures, found, call)?;
            let held = list_told(walk.signatures, call);
            bound.bind(*local, held)
        }
        Stmt::IfEq(a, b, inside) => {
            push_both(walk.f, bound, found, a, b)?;
            push_body(walk, bound, found, inside.as_slice())
        }
        Stmt::IfLet(pat, read, inside) => {
            push_arm(walk, bound, found, pat, read, inside.as_slice())
        }
        Stmt::Match(read, arms) => {
            for arm in arms.as_slice() {
                push_arm(walk, bound, found, &arm.0, read, arm.1.as_slice())?;
            }
            Ok(())
        }
        Stmt::Loop { list, item, body } => {
            push_loop(walk, bound, found, *list, *item, body.as_slice())
        }
        Stmt::Split { body, .. } => push_body(walk, bound, found, body.as_slice()),
        Stmt::Return(computed) => {
            push_returned(walk.alloc, walk.signatures, walk.f, found, computed)
        }
        Stmt::Extend(read) => {
            push_at(
                found,
                operand_of(read),
                Told::AValue(walk.f.result.as_str()),
            )
        }
        Stmt::Overflow { .. } | Stmt::Log { .. } | Stmt::Tail(_) => Ok(()),
    }
}

// Appends the places in statements in order, and leaves what they bound.
#[cycle(placing)]
fn push_body<'s>(
    walk: Walk<'s, '_>,
    bound: &mut Table<Told<'s>>,
    found: &mut Vec<(&'s Operand, &'s str)>,
    statements: &'s [Stmt],
) -> Result<(), AllocError>
    ensures more { OnOk result (placed found.new.items
        ≡ placed found.old.items
        ++ body_places (program walk.entry.signatures.now) (function walk.entry.f.now)
        (tells bound.old) (body statements.now)) }
    ensures kept { OnOk result (tells bound.new ≡ tells bound.old) }
{
    let count = bound.len();
    for statement in statements {
        push_statement(walk, bound, found, statement)?;
    }
    bound.truncate(count);
    Ok(())
}

/// Appends what stands in a function at places whose types the program fixes, with these types, in order. The only
/// error is want of memory.
pub fn push_places<'s>(
    alloc: Global,
    signatures: &'s Signatures<'_>,
    found: &mut Vec<(&'s Operand, &'s str)>,
    f: &'s Function,
) -> Result<(), AllocError>
    ensures { OnOk result
        (placed found.new.items
        ≡ placed found.old.items ++ places (program signatures.now) (function f.now)) }
{
    let mut bound = Table::new(alloc);
    let walk = Walk {
        alloc,
        signatures,
        f,
    };
    push_body(walk, &mut bound, found, f.body.as_slice())
}
