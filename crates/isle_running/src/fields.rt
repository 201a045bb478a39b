//! Patterns of variants and structs, which bind fields.

ghost use Rattle.std.specs.Prelude.{◌≡◌, IfOk, OnOk, Some, false};
ghost use Rattle.isle_core.specs.ValueViews.{value};
ghost use Rattle.isle_outcomes.specs.Fields.{fields};
ghost use Rattle.isle_tree.specs.Run as run;
ghost use Rattle.isle_running.specs.Frames.{Follows};
ghost use Rattle.isle_running.specs.Steps.{FitsSo, BindsSo};

use crate::frame::Frame;
use crate::holding::{Holding, Item};
use crate::named::Named;
use isle_core::{Text, Value};
use isle_outcomes::copied;
use isle_spelling::is_same;
use isle_tree::TBind;
use std::alloc::{AllocError, Global};

// Binds a local to the value of a field, where that is there.
fn bind_field(
    alloc: Global,
    bind: &TBind,
    found: &Named<'_>,
    frame: &mut Frame<'_>,
) -> Result<bool, AllocError>
    ensures binds { IfOk result
        (BindsSo bind.now.local (run.field_of bind.now.field (fields found.now)) frame.old
        frame.new) }
    ensures calls { frame.new.calls ≡ frame.old.calls }
    ensures given { frame.new.given.items ≡ frame.old.given.items }
{
    match found.value(bind.field.as_str()) {
        Some(value) => {
            let item = Item::Value(copied(alloc, value)?);
            frame.locals.bind(bind.local, Holding::One(item))?;
            Ok(true)
        }
        None => Ok(false),
    }
}

// Binds the locals of a pattern to the fields that are found, where all are there.
fn bind_fields(
    alloc: Global,
    binds: &[TBind],
    found: &Named<'_>,
    frame: &mut Frame<'_>,
) -> Result<bool, AllocError>
    ensures fits { IfOk result
        (FitsSo (run.fit_fields binds.now (fields found.now)) frame.old frame.new) }
    ensures kept { IfOk result (λ fits. fits ≡ false → frame.new.locals ≡ frame.old.locals) }
    ensures calls { frame.new.calls ≡ frame.old.calls }
    ensures given { frame.new.given.items ≡ frame.old.given.items }
    ensures follows { OnOk result (Follows frame.old frame.new) }
{
    let count = frame.locals.len();
    for bind in binds {
        if !bind_field(alloc, bind, found, frame)? {
            frame.locals.truncate(count);
            return Ok(false);
        }
    }
    Ok(true)
}

// Binds the locals of a pattern to the fields of a value, where all are there.
fn fit_fields(
    alloc: Global,
    binds: &[TBind],
    given: &[(Text, Value)],
    frame: &mut Frame<'_>,
) -> Result<bool, AllocError>
    ensures fits { IfOk result
        (FitsSo (run.fit_fields binds.now (fields given.now)) frame.old frame.new) }
    ensures kept { IfOk result (λ fits. fits ≡ false → frame.new.locals ≡ frame.old.locals) }
    ensures calls { frame.new.calls ≡ frame.old.calls }
    ensures given { frame.new.given.items ≡ frame.old.given.items }
    ensures follows { OnOk result (Follows frame.old frame.new) }
{
    let found = Named::new(alloc, given)?;
    bind_fields(alloc, binds, &found, frame)
}

/// Binds what the pattern of a variant binds, where a value is what the variant makes.
#[tactic(auto, using(isle_outcomes::proofs::SeesValues::sees_values))]
pub fn fit_variant(
    alloc: Global,
    ty: &str,
    variant: &str,
    binds: &[TBind],
    made: &Value,
    frame: &mut Frame<'_>,
) -> Result<bool, AllocError>
    ensures fits { IfOk result
        (FitsSo (run.fit_variant ty.now variant.now binds.now (Some (value made.now))) frame.old
        frame.new) }
    ensures kept { IfOk result (λ fits. fits ≡ false → frame.new.locals ≡ frame.old.locals) }
    ensures calls { frame.new.calls ≡ frame.old.calls }
    ensures given { frame.new.given.items ≡ frame.old.given.items }
    ensures follows { OnOk result (Follows frame.old frame.new) }
{
    match made {
        Value::Variant(of, name, given) => {
            if is_same(ty, of.as_str()) && is_same(variant, name.as_str()) {
                fit_fields(alloc, binds, given.as_slice(), frame)
            } else {
                Ok(false)
            }
        }
        Value::Bool(_) | Value::Int(..) | Value::Opaque(..) | Value::Struct(..) => Ok(false),
    }
}

/// Binds what the pattern of a struct binds, where a value is what the struct makes.
#[tactic(auto, using(isle_outcomes::proofs::SeesValues::sees_values))]
pub fn fit_struct(
    alloc: Global,
    ty: &str,
    binds: &[TBind],
    made: &Value,
    frame: &mut Frame<'_>,
) -> Result<bool, AllocError>
    ensures fits { IfOk result
        (FitsSo (run.fit_struct ty.now binds.now (Some (value made.now))) frame.old frame.new) }
    ensures kept { IfOk result (λ fits. fits ≡ false → frame.new.locals ≡ frame.old.locals) }
    ensures calls { frame.new.calls ≡ frame.old.calls }
    ensures given { frame.new.given.items ≡ frame.old.given.items }
    ensures follows { OnOk result (Follows frame.old frame.new) }
{
    match made {
        Value::Struct(of, given) => {
            if is_same(ty, of.as_str()) {
                fit_fields(alloc, binds, given.as_slice(), frame)
            } else {
                Ok(false)
            }
        }
        Value::Bool(_) | Value::Int(..) | Value::Opaque(..) | Value::Variant(..) => Ok(false),
    }
}
