//! The run of a function's statements. What holds a value of the run stands outside the cycle of `run_body` and is not
//! inlined into it, so that a statement within a statement costs little stack.

ghost use Rattle.std.specs.Prelude.{◌≡◌, Some, IfOk, OnOk};
ghost use Rattle.isle_core.specs.Value.{GivesSome};
ghost use Rattle.isle_core.specs.ValueViews.{value};
ghost use Rattle.isle_tree.specs.Run as run;
ghost use Rattle.isle_tree.specs.Run.{value_in, value_of};
ghost use Rattle.isle_tree.specs.Views.{stmt, body, arms};
ghost use Rattle.isle_running.specs.RunViews.{held, locals, within, state, flow, tested};
ghost use Rattle.isle_running.specs.declared.frame.Frame.{Frame};
ghost use Rattle.isle_running.specs.Frames.{Follows};
ghost use Rattle.isle_running.specs.Steps.{RunsSo, run_inside, run_read, run_match, run_turn, run_loop, test};

use crate::arms::first_fit;
use crate::around::Around;
use crate::fit::{fit_item, fits};
use crate::flow::Flow;
use crate::frame::Frame;
use crate::holding::{Holding, Item, is_equal, value_in};
use crate::lets::{run_call, run_let};
use crate::lists::list_len;
use crate::reading::{read_value, value_of};
use crate::results::{after_closure, run_extend, run_overflow};
use isle_core::{Boxed, End, List, Text, Value};
use isle_tree::{Operand, Read, Stmt, TExpr, TPat};
use std::alloc::{AllocError, Global};

// The end that gives what a place holds.
fn ends_with(alloc: Global, holding: Holding) -> Result<Flow, AllocError>
    ensures { IfOk result (λ f.
        (frame : Frame) → run.ends_with (held holding) (state frame) ≡ flow f frame) }
{
    match holding {
        Holding::One(Item::Value(value)) => {
            Ok(Flow::Ends(Boxed::new(alloc, End::Value(value))?))
        }
        Holding::Optional(Some(Item::Value(value))) => {
            Ok(Flow::Ends(Boxed::new(alloc, End::Some(value))?))
        }
        Holding::Optional(None) => Ok(Flow::Ends(Boxed::new(alloc, End::Nothing)?)),
        Holding::One(Item::Tuple(_))
        | Holding::Optional(Some(Item::Tuple(_)))
        | Holding::Listed(_)
        | Holding::Absent => Ok(Flow::Stuck),
    }
}

// The end that gives an option of a value.
#[tactic(auto, using(crate::proofs::ValuesIn::on_value_in))]
fn ends_some(alloc: Global, holding: Holding) -> Result<Flow, AllocError>
    ensures { IfOk result (λ f. (frame : Frame)
        → run.on_value (held holding) (λ v. run.Ends (GivesSome v) (state frame))
        ≡ flow f frame) }
{
    match value_in(holding) {
        Some(value) => Ok(Flow::Ends(Boxed::new(alloc, End::Some(value))?)),
        None => Ok(Flow::Stuck),
    }
}

// The end of a tail.
#[inline(never)]
fn run_tail(alloc: Global, given: &Option<(Text, Text)>) -> Result<Flow, AllocError>
    ensures { IfOk result (λ f.
        (frame : Frame) → run.Ends (run.tail_end given.now) (state frame) ≡ flow f frame) }
{
    match given {
        Some(_) => Ok(Flow::Ends(Boxed::new(alloc, End::Unreachable)?)),
        None => Ok(Flow::Ends(Boxed::new(alloc, End::Nothing)?)),
    }
}

// What a return gives.
#[inline(never)]
fn run_return(
    alloc: Global,
    around: &Around<'_>,
    frame: &Frame<'_>,
    given: &TExpr,
) -> Result<Flow, AllocError>
    ensures { IfOk result
        (RunsSo (λ w. run.run_return w given.now) around.now frame.now frame.now) }
{
    match given {
        TExpr::Read(read) => {
            let holding = read_value(alloc, around, frame, read)?;
            let end = ends_with(alloc, holding)?;
            Ok(end)
        }
        TExpr::Some(read) => {
            let holding = read_value(alloc, around, frame, read)?;
            let end = ends_some(alloc, holding)?;
            Ok(end)
        }
        TExpr::Call { .. }
        | TExpr::Variant { .. }
        | TExpr::Struct { .. }
        | TExpr::Try { .. }
        | TExpr::Tuple(..) => Ok(Flow::Stuck),
    }
}

// How the test of a value and an operand goes.
fn test_value(
    alloc: Global,
    around: &Around<'_>,
    frame: &Frame<'_>,
    one: &Value,
    b: &Operand,
) -> Result<Option<bool>, AllocError>
    ensures { IfOk result (λ t.
        t ≡ tested (Some (value one.now))
        (value_in (value_of (within around.now frame.now) (locals frame.now.locals) b.now))) }
{
    match value_in(value_of(alloc, around, frame, b)?) {
        Some(other) => Ok(Some(is_equal(one, other))),
        None => Ok(None),
    }
}

// How the test of two operands goes.
#[inline(never)]
fn test(
    alloc: Global,
    around: &Around<'_>,
    frame: &Frame<'_>,
    a: &Operand,
    b: &Operand,
) -> Result<Option<bool>, AllocError>
    ensures { IfOk result (λ t.
        t ≡ test (within around.now frame.now) (locals frame.now.locals) a.now b.now) }
{
    match value_in(value_of(alloc, around, frame, a)?) {
        Some(one) => test_value(alloc, around, frame, &one, b),
        None => Ok(None),
    }
}

// Gives one result more: what is read.
#[inline(never)]
fn run_given(
    alloc: Global,
    around: &Around<'_>,
    frame: &mut Frame<'_>,
    read: &Read,
) -> Result<Flow, AllocError>
    ensures runs { IfOk result (RunsSo (λ w env s. run.on_value (run.read_value w env read.now)
        (λ v. run.Goes env (run.one_given s v))) around.now frame.old frame.new) }
    ensures follows { OnOk result (Follows frame.old frame.new) }
{
    let holding = read_value(alloc, around, frame, read)?;
    run_extend(frame, holding)
}

// Runs a statement.
#[cycle(running)]
#[tactic(auto, using(isle_tree::proofs::Sees::sees, crate::proofs::Tests::on_test))]
fn run_stmt(
    alloc: Global,
    around: &Around<'_>,
    statement: &Stmt,
    frame: &mut Frame<'_>,
) -> Result<Flow, AllocError>
    ensures runs { IfOk result
        (RunsSo (λ w. run.run_stmt w (stmt statement.now)) around.now frame.old frame.new) }
    ensures follows { OnOk result (Follows frame.old frame.new) }
{
    match statement {
        Stmt::Let(local, computed) => run_let(alloc, around, frame, *local, computed),
        Stmt::IfEq(a, b, inside) => match test(alloc, around, frame, a, b)? {
            Some(true) => run_inside(alloc, around, inside.as_slice(), frame),
            Some(false) => Ok(Flow::Goes),
            None => Ok(Flow::Stuck),
        },
        Stmt::IfLet(pat, read, inside) => {
            run_where(alloc, around, pat, read, inside.as_slice(), frame)
        }
        Stmt::Match(read, arms) => run_match(alloc, around, read, arms.as_slice(), frame),
        Stmt::Return(given) => run_return(alloc, around, frame, given),
        Stmt::Tail(given) => {
            let end = run_tail(alloc, given)?;
            Ok(end)
        }
        Stmt::LetList { local, call } => run_call(alloc, around, frame, *local, call),
        Stmt::Loop { list, item, body } => {
            run_loop(alloc, around, *list, *item, body.as_slice(), frame)
        }
        Stmt::Extend(read) => run_given(alloc, around, frame, read),
        Stmt::Overflow { inside, limit } => Ok(run_overflow(around, frame, *inside, *limit)),
        Stmt::Log { .. } => Ok(Flow::Goes),
        Stmt::Split { body, inside } => {
            let end = run_inside(alloc, around, body.as_slice(), frame)?;
            Ok(after_closure(end, *inside))
        }
    }
}

// Runs statements, and leaves what they bound.
#[cycle(running)]
fn run_inside(
    alloc: Global,
    around: &Around<'_>,
    statements: &[Stmt],
    frame: &mut Frame<'_>,
) -> Result<Flow, AllocError>
    ensures runs { IfOk result
        (RunsSo (run_inside (body statements.now)) around.now frame.old frame.new) }
    ensures kept { OnOk result (frame.new.locals ≡ frame.old.locals) }
    ensures follows { OnOk result (Follows frame.old frame.new) }
{
    let bound = frame.locals.len();
    let end = run_body(alloc, around, statements, frame)?;
    frame.locals.truncate(bound);
    Ok(end)
}

// Runs the first arm whose pattern fits what is read, and leaves what it and the pattern bound.
#[cycle(running)]
fn run_match(
    alloc: Global,
    around: &Around<'_>,
    read: &Read,
    cases: &[(TPat, List<Stmt>)],
    frame: &mut Frame<'_>,
) -> Result<Flow, AllocError>
    ensures runs { IfOk result
        (RunsSo (run_match read.now (arms cases.now)) around.now frame.old frame.new) }
    ensures follows { OnOk result (Follows frame.old frame.new) }
{
    let bound = frame.locals.len();
    let place = first_fit(alloc, around, read, cases, frame)?;
    match cases.get(place) {
        Some(arm) => {
            let end = run_body(alloc, around, arm.1.as_slice(), frame)?;
            frame.locals.truncate(bound);
            Ok(end)
        }
        None => Ok(Flow::Goes),
    }
}

// Runs statements where a pattern fits what is read, and leaves what they and the pattern bound.
#[cycle(running)]
fn run_where(
    alloc: Global,
    around: &Around<'_>,
    pat: &TPat,
    read: &Read,
    statements: &[Stmt],
    frame: &mut Frame<'_>,
) -> Result<Flow, AllocError>
    ensures runs { IfOk result
        (RunsSo (run_read pat.now read.now (body statements.now)) around.now frame.old
        frame.new) }
    ensures follows { OnOk result (Follows frame.old frame.new) }
{
    let bound = frame.locals.len();
    if fits(alloc, around, pat, read, frame)? {
        let end = run_body(alloc, around, statements, frame)?;
        frame.locals.truncate(bound);
        Ok(end)
    } else {
        Ok(Flow::Goes)
    }
}

// Runs statements for an item of the list that a local holds, as a test of whether it is there, and leaves what was
// bound.
#[cycle(running)]
fn run_turn(
    alloc: Global,
    around: &Around<'_>,
    list: usize,
    item: usize,
    index: usize,
    statements: &[Stmt],
    frame: &mut Frame<'_>,
) -> Result<Flow, AllocError>
    ensures runs { IfOk result
        (RunsSo (run_turn list item index (body statements.now)) around.now frame.old frame.new) }
    ensures kept { OnOk result (frame.new.locals ≡ frame.old.locals) }
    ensures follows { OnOk result (Follows frame.old frame.new) }
{
    let bound = frame.locals.len();
    if fit_item(alloc, list, item, index, frame)? {
        let end = run_body(alloc, around, statements, frame)?;
        frame.locals.truncate(bound);
        Ok(end)
    } else {
        Ok(Flow::Goes)
    }
}

// Runs statements for each item of the list that a local holds, in order.
#[cycle(running)]
fn run_loop(
    alloc: Global,
    around: &Around<'_>,
    list: usize,
    item: usize,
    statements: &[Stmt],
    frame: &mut Frame<'_>,
) -> Result<Flow, AllocError>
    ensures runs { IfOk result
        (RunsSo (run_loop list item (body statements.now)) around.now frame.old frame.new) }
    ensures follows { OnOk result (Follows frame.old frame.new) }
{
    let count = match list_len(frame, list) {
        Some(count) => count,
        None => return Ok(Flow::Stuck),
    };
    for index in 0..count {
        match run_turn(alloc, around, list, item, index, statements, frame)? {
            Flow::Goes => {}
            Flow::Ends(end) => return Ok(Flow::Ends(end)),
            Flow::Full => return Ok(Flow::Full),
            Flow::Leaves => return Ok(Flow::Leaves),
            Flow::Stuck => return Ok(Flow::Stuck),
        }
    }
    Ok(Flow::Goes)
}

/// Runs statements in order.
#[cycle(running)]
pub fn run_body(
    alloc: Global,
    around: &Around<'_>,
    statements: &[Stmt],
    frame: &mut Frame<'_>,
) -> Result<Flow, AllocError>
    ensures runs { IfOk result
        (RunsSo (λ w. run.run_body w (body statements.now)) around.now frame.old frame.new) }
    ensures follows { OnOk result (Follows frame.old frame.new) }
{
    for statement in statements {
        match run_stmt(alloc, around, statement, frame)? {
            Flow::Goes => {}
            Flow::Ends(end) => return Ok(Flow::Ends(end)),
            Flow::Full => return Ok(Flow::Full),
            Flow::Leaves => return Ok(Flow::Leaves),
            Flow::Stuck => return Ok(Flow::Stuck),
        }
    }
    Ok(Flow::Goes)
}
