//! The operands of rows.

ghost use Rattle.std.specs.Prelude.{◌≡◌, ◌++◌, IfOk, OnOk, map};
ghost use Rattle.isle_pulley_rows.specs.Operands.{field_operand, has_trap as traps};
ghost use Rattle.isle_pulley_rows.specs.Operands.{has_trapping_address};
ghost use Rattle.isle_pulley_rows.specs.Operands.{operands as operands_of, plain_operand};
ghost use Rattle.isle_pulley_rows.specs.Operands.{read_type, trap_operand};
ghost use Rattle.isle_pulley_rows.specs.Skipped.{is_skipped as skips};

use crate::binary::binary;
use crate::operand::Operand;
use crate::words::{begins_with, names_trap};
use isle_core::{Name, Text};
use isle_meta::PulleyInst;
use isle_spelling::is_among;
use std::alloc::{AllocError, Global};

/// The rows that are skipped by their whole name.
const SKIPPED: [&str; 5] = [
    "Jump",
    "XPush32Many",
    "XPush64Many",
    "XPop32Many",
    "XPop64Many",
];

/// Tells whether nothing is generated of a row.
pub fn is_skipped(row: &PulleyInst) -> bool
    ensures { result ≡ skips row.now }
{
    let name = row.name.as_str();
    is_among(name, &SKIPPED) || begins_with("Call", name) || begins_with("Br", name)
}

// The type of what is read.
fn read_type(ty: &str) -> &str
    ensures { result.now ≡ read_type ty.now }
{
    if ty == "UpperRegSet < XReg >" {
        "UpperXRegSet"
    } else {
        ty
    }
}

// The operand of a field that isn't binary.
fn plain_operand<'t>(name: &'t str, ty: &'t str) -> Operand<'t>
    ensures { result ≡ plain_operand name.now ty.now }
{
    if begins_with("dst", name) {
        Operand::Writable(Name::new(name), Name::new(ty))
    } else {
        Operand::Normal(Name::new(name), Name::new(read_type(ty)))
    }
}

// The operand of a field.
fn field_operand<'t>(name: &'t str, ty: &'t str) -> Operand<'t>
    ensures { result ≡ field_operand (name.now, ty.now) }
{
    if name != "operands" {
        return plain_operand(name, ty);
    }
    match binary(ty) {
        Some(operand) => operand,
        None => plain_operand(name, ty),
    }
}

// Whether one of the fields is an address that may trap.
fn has_trapping_address(fields: &[(Text, Text)]) -> bool
    ensures { result ≡ has_trapping_address fields.now }
{
    for field in fields {
        if field.1.as_str() == "AddrZ" {
            return true;
        }
    }
    false
}

// Whether the code of a trap follows.
fn has_trap(row: &PulleyInst) -> bool
    ensures { result ≡ traps row.now }
{
    names_trap(row.name.as_str()) || has_trapping_address(row.fields.as_slice())
}

// The operands of fields.
fn field_operands<'t>(
    alloc: Global,
    fields: &'t [(Text, Text)],
) -> Result<Vec<Operand<'t>>, AllocError>
    ensures { IfOk result (λ found. found.items ≡ map field_operand fields.now) }
{
    let mut found = Vec::new(alloc);
    for field in fields {
        found.push(field_operand(field.0.as_str(), field.1.as_str()))?;
    }
    Ok(found)
}

// Puts the code of a trap behind operands, if it follows.
fn push_trap(operands: &mut Vec<Operand<'_>>, traps: bool) -> Result<(), AllocError>
    ensures { OnOk result (operands.new.items ≡ operands.old.items ++ trap_operand traps) }
{
    if traps {
        operands.push(Operand::Trap)?;
    }
    Ok(())
}

/// Returns the operands of a row. The only error is want of memory.
pub fn operands<'t>(alloc: Global, row: &'t PulleyInst) -> Result<Vec<Operand<'t>>, AllocError>
    ensures { IfOk result (λ found. found.items ≡ operands_of row.now) }
{
    let mut found = field_operands(alloc, row.fields.as_slice())?;
    push_trap(&mut found, has_trap(row))?;
    Ok(found)
}
