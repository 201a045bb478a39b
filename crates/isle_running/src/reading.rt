//! What operands hold.

ghost use Rattle.std.specs.Prelude.{◌≡◌, IfOk, option_map};
ghost use Rattle.isle_core.specs.ValueViews.{values};
ghost use Rattle.isle_tree.specs.Run.{look, value_of, read_value, read_values};
ghost use Rattle.isle_running.specs.RunViews.{held, locals, within};

use crate::around::Around;
use crate::constants::{named, unnamed};
use crate::frame::Frame;
use crate::holding::{Holding, Item, holding_copied, value_in};
use isle_core::Value;
use isle_outcomes::copied;
use isle_tree::{Operand, Read};
use std::alloc::{AllocError, Global};

// What a local holds.
fn local_value(alloc: Global, frame: &Frame<'_>, local: usize) -> Result<Holding, AllocError>
    ensures { IfOk result (λ h. held h ≡ look (locals frame.now.locals) local) }
{
    match frame.locals.get(local) {
        Some(found) => holding_copied(alloc, found),
        None => Ok(Holding::Absent),
    }
}

/// Returns what an operand holds.
#[tactic(auto, using(isle_outcomes::proofs::SeesValues::sees_values))]
pub fn value_of(
    alloc: Global,
    around: &Around<'_>,
    frame: &Frame<'_>,
    operand: &Operand,
) -> Result<Holding, AllocError>
    ensures { IfOk result (λ h.
        held h ≡ value_of (within around.now frame.now) (locals frame.now.locals) operand.now) }
{
    match operand {
        Operand::Local(local) => local_value(alloc, frame, *local),
        Operand::Arg(index) => match around.args.get(*index) {
            Some(arg) => Ok(Holding::One(Item::Value(copied(alloc, arg)?))),
            None => Ok(Holding::Absent),
        },
        Operand::Bool(truth) => Ok(Holding::One(Item::Value(Value::Bool(*truth)))),
        Operand::Int(ty, number) => Ok(Holding::One(Item::Value(Value::Int(*ty, *number)))),
        Operand::Raw(number) => Ok(Holding::One(Item::Value(unnamed(alloc, *number)))),
        Operand::Name(name) => Ok(Holding::One(Item::Value(named(alloc, frame, name.as_str())?))),
    }
}

/// Returns what is read.
pub fn read_value(
    alloc: Global,
    around: &Around<'_>,
    frame: &Frame<'_>,
    read: &Read,
) -> Result<Holding, AllocError>
    ensures { IfOk result (λ h.
        held h ≡ read_value (within around.now frame.now) (locals frame.now.locals) read.now) }
{
    match read {
        Read::Plain(operand) | Read::Borrow(operand) | Read::Clone(operand) => {
            value_of(alloc, around, frame, operand)
        }
    }
}

/// Returns the values that are read, where all are.
pub fn read_values(
    alloc: Global,
    around: &Around<'_>,
    frame: &Frame<'_>,
    reads: &[Read],
) -> Result<Option<Vec<Value>>, AllocError>
    ensures { IfOk result (λ read. option_map (λ vs. values vs.items) read
        ≡ read_values (within around.now frame.now) (locals frame.now.locals) reads.now) }
{
    let mut read = Vec::new(alloc);
    for next in reads {
        match value_in(read_value(alloc, around, frame, next)?) {
            Some(value) => read.push(value)?,
            None => return Ok(None),
        }
    }
    Ok(Some(read))
}
