//! The immediates of formats.

ghost use Rattle.std.specs.Prelude.{◌≡◌, ◌++◌, IfOk, OnOk};
ghost use Rattle.isle_meta.specs.FormatRow.{all_fields};
ghost use Rattle.isle_prelude.specs.Lent.{lent};

use isle_meta::{ImmField, InstructionFormat};
use std::alloc::{AllocError, Global};

// Puts fields behind fields.
fn push_fields<'t>(fields: &mut Vec<&'t ImmField>, more: &'t [ImmField]) -> Result<(), AllocError>
    ensures { OnOk result (lent fields.new.items ≡ lent fields.old.items ++ more.now) }
{
    for field in more {
        fields.push(field)?;
    }
    Ok(())
}

/// Gathers the immediates of formats, in order. The only error is want of memory.
pub fn all_fields<'t>(
    alloc: Global,
    formats: &'t [InstructionFormat],
) -> Result<Vec<&'t ImmField>, AllocError>
    ensures { IfOk result (λ fields. lent fields.items ≡ all_fields formats.now) }
{
    let mut fields = Vec::new(alloc);
    for format in formats {
        push_fields(&mut fields, format.imm_fields.as_slice())?;
    }
    Ok(fields)
}
