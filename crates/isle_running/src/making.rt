//! What variants and structs make of fields.

ghost use Rattle.std.specs.Prelude.{◌≡◌, IfOk, option_map};
ghost use Rattle.isle_core.specs.ValueViews.{const};
ghost use Rattle.isle_outcomes.specs.Fields.{fields};
ghost use Rattle.isle_tree.specs.Run.{read_value, read_fields};
ghost use Rattle.isle_running.specs.RunViews.{held, locals, within};
ghost use Rattle.isle_running.specs.Steps.{field_read, variant_held, struct_held};

use crate::around::Around;
use crate::frame::Frame;
use crate::holding::{Holding, Item, value_in};
use crate::reading::read_value;
use isle_core::{List, Text, Value};
use isle_tree::Read;
use std::alloc::{AllocError, Global};

// The value that is read as a field, under its name, where it is one.
fn read_field(
    alloc: Global,
    around: &Around<'_>,
    frame: &Frame<'_>,
    next: &(Text, Read),
) -> Result<Option<(Text, Value)>, AllocError>
    ensures { IfOk result (λ read.
        option_map const read
        ≡ field_read next.now.0
        (read_value (within around.now frame.now) (locals frame.now.locals) next.now.1)) }
{
    match value_in(read_value(alloc, around, frame, &next.1)?) {
        Some(value) => Ok(Some((Text::copied(alloc, next.0.as_str())?, value))),
        None => Ok(None),
    }
}

// The values that are read as fields, under their names, where all are values.
fn read_fields(
    alloc: Global,
    around: &Around<'_>,
    frame: &Frame<'_>,
    reads: &[(Text, Read)],
) -> Result<Option<Vec<(Text, Value)>>, AllocError>
    ensures { IfOk result (λ read. option_map (λ fs. fields fs.items) read
        ≡ read_fields (within around.now frame.now) (locals frame.now.locals) reads.now) }
{
    let mut read = Vec::new(alloc);
    for next in reads {
        match read_field(alloc, around, frame, next)? {
            Some(field) => read.push(field)?,
            None => return Ok(None),
        }
    }
    Ok(Some(read))
}

/// Returns what a variant makes of the fields that are read, where all are values.
#[tactic(auto, using(isle_outcomes::proofs::SeesValues::sees_values))]
pub fn variant_made(
    alloc: Global,
    around: &Around<'_>,
    frame: &Frame<'_>,
    ty: &str,
    variant: &str,
    reads: &[(Text, Read)],
) -> Result<Holding, AllocError>
    ensures { IfOk result (λ h.
        held h ≡ variant_held ty.now variant.now
        (read_fields (within around.now frame.now) (locals frame.now.locals) reads.now)) }
{
    match read_fields(alloc, around, frame, reads)? {
        Some(read) => {
            let ty = Text::copied(alloc, ty)?;
            let variant = Text::copied(alloc, variant)?;
            let made = Value::Variant(ty, variant, List::new(read));
            Ok(Holding::One(Item::Value(made)))
        }
        None => Ok(Holding::Absent),
    }
}

/// Returns what a struct makes of the fields that are read, where all are values.
#[tactic(auto, using(isle_outcomes::proofs::SeesValues::sees_values))]
pub fn struct_made(
    alloc: Global,
    around: &Around<'_>,
    frame: &Frame<'_>,
    ty: &str,
    reads: &[(Text, Read)],
) -> Result<Holding, AllocError>
    ensures { IfOk result (λ h.
        held h ≡ struct_held ty.now
        (read_fields (within around.now frame.now) (locals frame.now.locals) reads.now)) }
{
    match read_fields(alloc, around, frame, reads)? {
        Some(read) => {
            let made = Value::Struct(Text::copied(alloc, ty)?, List::new(read));
            Ok(Holding::One(Item::Value(made)))
        }
        None => Ok(Holding::Absent),
    }
}
