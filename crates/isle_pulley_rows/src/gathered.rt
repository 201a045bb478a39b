//! The operations of rows.

ghost use Rattle.std.specs.Prelude.{◌≡◌, ◌++◌, IfOk, OnOk};
ghost use Rattle.isle_pulley_rows.specs.Operations.{operation_of as operation, operations_of};
ghost use Rattle.isle_pulley_rows.specs.Operations.{operations as operations_in};

use crate::fields::{is_skipped, operands};
use crate::operation::Operation;
use isle_core::{List, Name};
use isle_meta::PulleyInst;
use std::alloc::{AllocError, Global};

// The operation of a row.
fn operation_of<'t>(alloc: Global, row: &'t PulleyInst) -> Result<Operation<'t>, AllocError>
    ensures { IfOk result (λ found. found ≡ operation row.now) }
{
    let found = operands(alloc, row)?;
    Ok(Operation {
        snake: Name::new(row.snake_name.as_str()),
        name: Name::new(row.name.as_str()),
        operands: List::new(found),
    })
}

// Puts the operations of rows behind others.
fn push_operations<'t>(
    alloc: Global,
    found: &mut Vec<Operation<'t>>,
    rows: &'t [PulleyInst],
) -> Result<(), AllocError>
    ensures { OnOk result (found.new.items ≡ found.old.items ++ operations_of rows.now) }
{
    for row in rows {
        if !is_skipped(row) {
            found.push(operation_of(alloc, row)?)?;
        }
    }
    Ok(())
}

/// Returns the operations of two lists of rows, in order. The only error is want of memory.
pub fn operations<'t>(
    alloc: Global,
    ops: &'t [PulleyInst],
    extended: &'t [PulleyInst],
) -> Result<Vec<Operation<'t>>, AllocError>
    ensures { IfOk result (λ found. found.items ≡ operations_in ops.now extended.now) }
{
    let mut found = Vec::new(alloc);
    push_operations(alloc, &mut found, ops)?;
    push_operations(alloc, &mut found, extended)?;
    Ok(found)
}
