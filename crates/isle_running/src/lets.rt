//! Lets and calls, which bind locals.

ghost use Rattle.std.specs.Prelude.{◌≡◌, Some, IfOk, OnOk, option_map};
ghost use Rattle.isle_core.specs.Answered.{an_option};
ghost use Rattle.isle_core.specs.ValueViews.{value};
ghost use Rattle.isle_tree.specs.Run as run;
ghost use Rattle.isle_running.specs.RunViews.{held, locals, state, flow};
ghost use Rattle.isle_running.specs.Frames.{Follows};
ghost use Rattle.isle_running.specs.Steps.{RunsSo};

use crate::around::Around;
use crate::flow::Flow;
use crate::frame::Frame;
use crate::holding::{Holding, Item, part_of, value_in};
use crate::making::{struct_made, variant_made};
use crate::reading::{read_value, read_values, value_of};
use isle_core::{Boxed, End, Value};
use isle_tree::{Operand, TCall, TExpr};
use std::alloc::{AllocError, Global};

// Binds a local to what a place holds.
fn bind(frame: &mut Frame<'_>, local: usize, holding: Holding) -> Result<Flow, AllocError>
    ensures runs { IfOk result (λ f.
        run.run_bind local (held holding) (locals frame.old.locals) (state frame.old)
        ≡ flow f frame.new) }
    ensures follows { OnOk result (Follows frame.old frame.new) }
{
    match holding {
        Holding::Absent => Ok(Flow::Stuck),
        Holding::One(item) => {
            frame.locals.bind(local, Holding::One(item))?;
            Ok(Flow::Goes)
        }
        Holding::Optional(option) => {
            frame.locals.bind(local, Holding::Optional(option))?;
            Ok(Flow::Goes)
        }
        Holding::Listed(items) => {
            frame.locals.bind(local, Holding::Listed(items))?;
            Ok(Flow::Goes)
        }
    }
}

/// Binds a local to what a call answers.
#[inline(never)]
pub fn run_call(
    alloc: Global,
    around: &Around<'_>,
    frame: &mut Frame<'_>,
    local: usize,
    call: &TCall,
) -> Result<Flow, AllocError>
    ensures runs { IfOk result
        (RunsSo (λ w env.
        run.run_call w local call.now.callee (run.read_values w env call.now.args) env)
        around.now frame.old frame.new) }
    ensures follows { OnOk result (Follows frame.old frame.new) }
{
    let read = match read_values(alloc, around, frame, call.args.as_slice())? {
        Some(read) => read,
        None => return Ok(Flow::Stuck),
    };
    let holding = frame.calls.call(alloc, &call.callee, read)?;
    bind(frame, local, holding)
}

// Binds a local to what is within an option, or ends.
fn run_try(
    alloc: Global,
    frame: &mut Frame<'_>,
    local: usize,
    holding: Holding,
) -> Result<Flow, AllocError>
    ensures runs { IfOk result (λ f.
        run.run_try local (held holding) (locals frame.old.locals) (state frame.old)
        ≡ flow f frame.new) }
    ensures follows { OnOk result (Follows frame.old frame.new) }
{
    match holding {
        Holding::Optional(Some(item)) => {
            frame.locals.bind(local, Holding::One(item))?;
            Ok(Flow::Goes)
        }
        Holding::Optional(None) => Ok(Flow::Ends(Boxed::new(alloc, End::Nothing)?)),
        Holding::One(_) | Holding::Listed(_) | Holding::Absent => Ok(Flow::Stuck),
    }
}

// Binds a local to an option of a value.
#[tactic(auto, using(crate::proofs::ValuesIn::on_value_in))]
fn run_some(frame: &mut Frame<'_>, local: usize, holding: Holding) -> Result<Flow, AllocError>
    ensures runs { IfOk result (λ f.
        run.on_value (held holding)
        (λ v. run.Goes (run.bind (locals frame.old.locals) local (an_option (Some v)))
        (state frame.old))
        ≡ flow f frame.new) }
    ensures follows { OnOk result (Follows frame.old frame.new) }
{
    match value_in(holding) {
        Some(value) => {
            let option = Some(Item::Value(value));
            frame.locals.bind(local, Holding::Optional(option))?;
            Ok(Flow::Goes)
        }
        None => Ok(Flow::Stuck),
    }
}

// Binds a local to a value, where it is there.
fn bind_value(frame: &mut Frame<'_>, local: usize, found: Option<Value>) -> Result<Flow, AllocError>
    ensures runs { IfOk result (λ f.
        run.run_part local (option_map value found) (locals frame.old.locals) (state frame.old)
        ≡ flow f frame.new) }
    ensures follows { OnOk result (Follows frame.old frame.new) }
{
    match found {
        Some(value) => {
            frame.locals.bind(local, Holding::One(Item::Value(value)))?;
            Ok(Flow::Goes)
        }
        None => Ok(Flow::Stuck),
    }
}

// Binds a local to a part of a tuple.
fn run_part(
    alloc: Global,
    around: &Around<'_>,
    frame: &mut Frame<'_>,
    local: usize,
    source: &Operand,
    part: usize,
) -> Result<Flow, AllocError>
    ensures runs { IfOk result
        (RunsSo (λ w env. run.run_part local (run.part_of part (run.value_of w env source.now)) env)
        around.now frame.old frame.new) }
    ensures follows { OnOk result (Follows frame.old frame.new) }
{
    let holding = value_of(alloc, around, frame, source)?;
    let found = part_of(alloc, holding, part)?;
    bind_value(frame, local, found)
}

/// Binds a local to what is computed.
#[tactic(auto, using(crate::proofs::Makes::variant_bound, crate::proofs::Makes::struct_bound))]
#[inline(never)]
pub fn run_let(
    alloc: Global,
    around: &Around<'_>,
    frame: &mut Frame<'_>,
    local: usize,
    computed: &TExpr,
) -> Result<Flow, AllocError>
    ensures runs { IfOk result
        (RunsSo (λ w. run.run_let w local computed.now) around.now frame.old frame.new) }
    ensures follows { OnOk result (Follows frame.old frame.new) }
{
    match computed {
        TExpr::Read(read) => {
            let holding = read_value(alloc, around, frame, read)?;
            bind(frame, local, holding)
        }
        TExpr::Some(read) => {
            let holding = read_value(alloc, around, frame, read)?;
            run_some(frame, local, holding)
        }
        TExpr::Call { call, .. } => run_call(alloc, around, frame, local, call),
        TExpr::Try { source, .. } => {
            let holding = value_of(alloc, around, frame, source)?;
            run_try(alloc, frame, local, holding)
        }
        TExpr::Variant {
            ty,
            variant,
            fields,
        } => {
            let reads = fields.as_slice();
            let holding = variant_made(alloc, around, frame, ty.as_str(), variant.as_str(), reads)?;
            bind(frame, local, holding)
        }
        TExpr::Struct { ty, fields } => {
            let holding = struct_made(alloc, around, frame, ty.as_str(), fields.as_slice())?;
            bind(frame, local, holding)
        }
        TExpr::Tuple(source, part) => run_part(alloc, around, frame, local, source, *part),
    }
}
