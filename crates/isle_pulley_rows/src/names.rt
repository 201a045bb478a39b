//! The names of rows.

ghost use Rattle.std.specs.Prelude.{◌≡◌, ◌++◌, IfOk, OnOk};
ghost use Rattle.isle_meta.specs.TableNames.{texts};
ghost use Rattle.isle_pulley_rows.specs.Names.{operand_names as names_in};
ghost use Rattle.isle_pulley_rows.specs.Names.{operand_types as types_in};
ghost use Rattle.isle_pulley_rows.specs.Names.{names_of, types_of};
ghost use Rattle.isle_pulley_rows.specs.PulleyRow.{field_names as names_of_fields};
ghost use Rattle.isle_pulley_rows.specs.PulleyRow.{row_names as names_of_row};

use crate::operand::Operand;
use isle_core::Text;
use isle_meta::PulleyInst;
use std::alloc::{AllocError, Global};

// Puts the names of fields behind names.
fn push_field_names<'t>(
    names: &mut Vec<&'t str>,
    fields: &'t [(Text, Text)],
) -> Result<(), AllocError>
    ensures { OnOk result
        (texts names.new.items ≡ texts names.old.items ++ names_of_fields fields.now) }
{
    for field in fields {
        names.push(field.0.as_str())?;
    }
    Ok(())
}

/// Returns the names of fields. The only error is want of memory.
pub fn field_names<'t>(
    alloc: Global,
    fields: &'t [(Text, Text)],
) -> Result<Vec<&'t str>, AllocError>
    ensures { IfOk result (λ names. texts names.items ≡ names_of_fields fields.now) }
{
    let mut names = Vec::new(alloc);
    push_field_names(&mut names, fields)?;
    Ok(names)
}

/// Returns the names of a row: its own two, and those of its fields. The only error is want of memory.
pub fn row_names<'t>(alloc: Global, row: &'t PulleyInst) -> Result<Vec<&'t str>, AllocError>
    ensures { IfOk result (λ names. texts names.items ≡ names_of_row row.now) }
{
    let mut names = Vec::new(alloc);
    names.push(row.snake_name.as_str())?;
    names.push(row.name.as_str())?;
    push_field_names(&mut names, row.fields.as_slice())?;
    Ok(names)
}

// Puts the names of an operand behind names.
fn push_names<'t>(names: &mut Vec<&'t str>, operand: &'t Operand<'_>) -> Result<(), AllocError>
    ensures { OnOk result
        (texts names.new.items ≡ texts names.old.items ++ names_of operand.now) }
{
    match operand {
        Operand::Normal(name, _) => names.push(name.as_str())?,
        Operand::Writable(name, _) => names.push(name.as_str())?,
        Operand::Binop(_, _, _) => {
            names.push("dst")?;
            names.push("src1")?;
            names.push("src2")?;
        }
        Operand::Trap => names.push("code")?,
    }
    Ok(())
}

/// Returns the names of operands. The only error is want of memory.
pub fn operand_names<'t>(
    alloc: Global,
    operands: &'t [Operand<'_>],
) -> Result<Vec<&'t str>, AllocError>
    ensures { IfOk result (λ names. texts names.items ≡ names_in operands.now) }
{
    let mut names = Vec::new(alloc);
    for operand in operands {
        push_names(&mut names, operand)?;
    }
    Ok(names)
}

// Puts the types of an operand behind types.
fn push_types<'t>(types: &mut Vec<&'t str>, operand: &'t Operand<'_>) -> Result<(), AllocError>
    ensures { OnOk result
        (texts types.new.items ≡ texts types.old.items ++ types_of operand.now) }
{
    match operand {
        Operand::Normal(_, ty) => types.push(ty.as_str())?,
        Operand::Writable(_, ty) => types.push(ty.as_str())?,
        Operand::Binop(dst, src1, src2) => {
            types.push(dst.as_str())?;
            types.push(src1.as_str())?;
            types.push(src2.as_str())?;
        }
        Operand::Trap => {}
    }
    Ok(())
}

/// Returns the types of operands. The only error is want of memory.
pub fn operand_types<'t>(
    alloc: Global,
    operands: &'t [Operand<'_>],
) -> Result<Vec<&'t str>, AllocError>
    ensures { IfOk result (λ types. texts types.items ≡ types_in operands.now) }
{
    let mut types = Vec::new(alloc);
    for operand in operands {
        push_types(&mut types, operand)?;
    }
    Ok(types)
}
