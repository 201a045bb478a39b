//! Whether patterns fit what is read, and what they bind.

ghost use Rattle.std.specs.Prelude.{◌≡◌, IfOk, OnOk, false, Some as Is};
ghost use Rattle.isle_core.specs.Answered.{a_value};
ghost use Rattle.isle_core.specs.ValueViews.{value};
ghost use Rattle.isle_tree.specs.Run as run;
ghost use Rattle.isle_running.specs.RunViews.{held, locals, within};
ghost use Rattle.isle_running.specs.Frames.{Follows};
ghost use Rattle.isle_running.specs.Steps.{FitsSo, item_at};
ghost use Rattle.isle_running.specs.declared.around.Around.{Around as CodeAround};

use crate::around::Around;
use crate::constants::is_constant;
use crate::fields::{fit_struct, fit_variant};
use crate::frame::Frame;
use crate::holding::{Holding, item_copied, item_within, value_held};
use crate::lists::item_at;
use crate::reading::read_value;
use isle_core::Value;
use isle_tree::{Read, TPat};
use std::alloc::{AllocError, Global};

// Binds what is within an option, where there is something.
fn fit_some(
    alloc: Global,
    local: Option<usize>,
    holding: &Holding,
    frame: &mut Frame<'_>,
) -> Result<bool, AllocError>
    ensures fits { IfOk result
        (FitsSo (run.fit_some local (held holding.now)) frame.old frame.new) }
    ensures kept { IfOk result (λ fits. fits ≡ false → frame.new.locals ≡ frame.old.locals) }
    ensures calls { frame.new.calls ≡ frame.old.calls }
    ensures given { frame.new.given.items ≡ frame.old.given.items }
    ensures follows { OnOk result (Follows frame.old frame.new) }
{
    match item_within(holding) {
        Some(found) => {
            if let Some(local) = local {
                let item = item_copied(alloc, found)?;
                frame.locals.bind(local, Holding::One(item))?;
            }
            Ok(true)
        }
        None => Ok(false),
    }
}

// Binds what a pattern binds, where it fits a value.
fn fit_value(
    alloc: Global,
    pat: &TPat,
    given: &Value,
    frame: &mut Frame<'_>,
) -> Result<bool, AllocError>
    ensures fits { (w : CodeAround)
        → IfOk result
        (FitsSo (run.fit (within w frame.old) pat.now (a_value (value given.now))) frame.old
        frame.new) }
    ensures kept { IfOk result (λ fits. fits ≡ false → frame.new.locals ≡ frame.old.locals) }
    ensures calls { frame.new.calls ≡ frame.old.calls }
    ensures given { frame.new.given.items ≡ frame.old.given.items }
    ensures follows { OnOk result (Follows frame.old frame.new) }
{
    match pat {
        TPat::Const(operand) => Ok(is_constant(alloc, frame, given, operand)),
        TPat::Some(_) => Ok(false),
        TPat::Variant {
            ty,
            variant,
            binds,
            ..
        } => fit_variant(
            alloc,
            ty.as_str(),
            variant.as_str(),
            binds.as_slice(),
            given,
            frame,
        ),
        TPat::Struct { ty, binds, .. } => {
            fit_struct(alloc, ty.as_str(), binds.as_slice(), given, frame)
        }
    }
}

/// Binds what a pattern binds, where it fits what is read, and tells whether it does.
pub fn fit(
    alloc: Global,
    pat: &TPat,
    holding: &Holding,
    frame: &mut Frame<'_>,
) -> Result<bool, AllocError>
    ensures fits { (w : CodeAround)
        → IfOk result
        (FitsSo (run.fit (within w frame.old) pat.now (held holding.now)) frame.old frame.new) }
    ensures kept { IfOk result (λ fits. fits ≡ false → frame.new.locals ≡ frame.old.locals) }
    ensures calls { frame.new.calls ≡ frame.old.calls }
    ensures given { frame.new.given.items ≡ frame.old.given.items }
    ensures follows { OnOk result (Follows frame.old frame.new) }
{
    match pat {
        TPat::Some(local) => fit_some(alloc, *local, holding, frame),
        TPat::Const(_) | TPat::Variant { .. } | TPat::Struct { .. } => match value_held(holding) {
            Some(given) => fit_value(alloc, pat, given, frame),
            None => Ok(false),
        },
    }
}

/// Binds what a pattern binds, where it fits what is read now, and tells whether it does. Not inlined, so that what is
/// read costs no stack where statements run.
#[inline(never)]
pub fn fits(
    alloc: Global,
    around: &Around<'_>,
    pat: &TPat,
    read: &Read,
    frame: &mut Frame<'_>,
) -> Result<bool, AllocError>
    ensures fits { IfOk result (FitsSo (run.fit (within around.now frame.old) pat.now
        (run.read_value (within around.now frame.old) (locals frame.old.locals) read.now))
        frame.old frame.new) }
    ensures kept { IfOk result (λ fits. fits ≡ false → frame.new.locals ≡ frame.old.locals) }
    ensures calls { frame.new.calls ≡ frame.old.calls }
    ensures given { frame.new.given.items ≡ frame.old.given.items }
    ensures follows { OnOk result (Follows frame.old frame.new) }
{
    let holding = read_value(alloc, around, frame, read)?;
    fit(alloc, pat, &holding, frame)
}

/// Binds a local to the item of this number of the list that another holds, where it is there, and tells whether it is.
/// Not inlined either.
#[inline(never)]
pub fn fit_item(
    alloc: Global,
    list: usize,
    item: usize,
    index: usize,
    frame: &mut Frame<'_>,
) -> Result<bool, AllocError>
    ensures fits { IfOk result (FitsSo (run.fit_some (Is item)
        (item_at index (run.look (locals frame.old.locals) list))) frame.old frame.new) }
    ensures kept { IfOk result (λ fits. fits ≡ false → frame.new.locals ≡ frame.old.locals) }
    ensures calls { frame.new.calls ≡ frame.old.calls }
    ensures given { frame.new.given.items ≡ frame.old.given.items }
    ensures follows { OnOk result (Follows frame.old frame.new) }
{
    let found = item_at(alloc, frame, list, index)?;
    fit_some(alloc, Some(item), &found, frame)
}
