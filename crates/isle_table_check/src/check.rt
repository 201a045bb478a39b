//! The check of all tables.

ghost use Rattle.std.specs.Prelude.{◌≡◌, ◌++◌, IfOk, OnOk, Option};
ghost use Rattle.isle_meta.specs.Checked.{Answers, Checks};
ghost use Rattle.isle_meta.specs.InstructionRow.{own_names};
ghost use Rattle.isle_meta.specs.TableNames.{texts};
ghost use Rattle.isle_meta.specs.Told.{found_row};
ghost use Rattle.isle_meta.specs.declared.errors.Unsupported.{Unsupported};
ghost use Rattle.isle_table_check.specs.SupportedTables.{IsFirstMachineRow, IsFirstUnsupported};

use isle_assembler_rows::unsupported_inst;
use isle_meta::{
    Instruction, Shape, TableFail, Tables, checked, unsupported_format, unsupported_instruction,
};
use isle_pulley_rows::unsupported_operation;
use std::alloc::{AllocError, Global};

// Puts the names of instructions behind names.
fn push_names<'t>(
    names: &mut Vec<&'t str>,
    instructions: &'t [Instruction],
) -> Result<(), AllocError>
    ensures { OnOk result
        (texts names.new.items ≡ texts names.old.items ++ own_names instructions.now) }
{
    for instruction in instructions {
        names.push(instruction.name.as_str())?;
    }
    Ok(())
}

// The names of instructions.
fn instruction_names<'t>(
    alloc: Global,
    instructions: &'t [Instruction],
) -> Result<Vec<&'t str>, AllocError>
    ensures { IfOk result (λ names. texts names.items ≡ own_names instructions.now) }
{
    let mut names = Vec::new(alloc);
    push_names(&mut names, instructions)?;
    Ok(names)
}

// The first row of machines that isn't supported, by its name, with its first shape.
fn unsupported_machine_row<'t>(
    alloc: Global,
    tables: &'t Tables,
) -> Result<Option<(&'t str, Shape)>, AllocError>
    ensures { IfOk result (λ found. IsFirstMachineRow tables.now (found_row found)) }
{
    let names = instruction_names(alloc, tables.instructions.as_slice())?;
    let found = unsupported_inst(alloc, names.as_slice(), tables.x64.as_slice())?;
    if found.is_some() {
        return Ok(found);
    }
    let (ops, extended) = (tables.ops.as_slice(), tables.extended_ops.as_slice());
    unsupported_operation(alloc, names.as_slice(), ops, extended)
}

// The first row that isn't supported, by its name, with its first shape.
fn unsupported_row<'t>(
    alloc: Global,
    tables: &'t Tables,
) -> Result<Option<(&'t str, Shape)>, AllocError>
    ensures { IfOk result (λ found. IsFirstUnsupported tables.now (found_row found)) }
{
    let formats = tables.formats.as_slice();
    let found = unsupported_format(alloc, formats)?;
    if found.is_some() {
        return Ok(found);
    }
    let found = unsupported_instruction(alloc, formats, tables.instructions.as_slice())?;
    if found.is_some() {
        return Ok(found);
    }
    unsupported_machine_row(alloc, tables)
}

// Whether each row is supported, or else the first that isn't.
#[tactic(auto, using(isle_meta::proofs::CheckLaws::found_checks))]
fn check_rows(alloc: Global, tables: &Tables) -> Result<(), TableFail>
    ensures { Checks (IsFirstUnsupported tables.now) result }
{
    let found = unsupported_row(alloc, tables)?;
    checked(alloc, found)
}

/// Looks for the first row that isn't supported: formats, instructions, then the rows of the assembler and of the
/// interpreter (`specs/SupportedTables.antt`). `Unsupported` gives its name and the first shape that it breaks,
/// `Memory` says that memory ran out. No other row is the first.
pub fn check_tables(alloc: Global, tables: &Tables) -> Result<(), TableFail>
    ensures checks { Checks (IsFirstUnsupported tables.now) result }
    ensures only { (first : Option Unsupported) → IsFirstUnsupported tables.now first
        → Answers first result }
{
    check_rows(alloc, tables)
}
