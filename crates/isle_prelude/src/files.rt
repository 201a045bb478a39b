//! The two files of instructions.

ghost use Rattle.std.specs.Prelude.{◌≡◌, ◌++◌, IfOk, OnOk, string_bytes};
ghost use Rattle.std.specs.List.{flat_map};
ghost use Rattle.isle_meta.specs.FormatRow.{all_fields};
ghost use Rattle.isle_prelude.specs.ClifFiles.{file_defs, lower_defs, opt_defs};
ghost use Rattle.isle_prelude.specs.FileManners.{file_case, file_manner};
ghost use Rattle.isle_prelude.specs.Generated.{Generates};
ghost use Rattle.isle_prelude.specs.TermPieces.{file_piece, instruction_piece, row_piece};
ghost use Rattle.isle_prelude.specs.TypePieces.{common_piece, imm_piece};
ghost use Rattle.isle_writing.specs.Text.{def_texts};

use crate::arrays::push_arrays;
use crate::fields::all_fields;
use crate::immediates::push_imm_types;
use crate::instruction_data::push_data_types;
use crate::instructions::push_instruction;
use crate::manners::{InstructionFile, file_manner};
use isle_meta::{Instruction, InstructionFormat, TableFail, Tables};
use isle_table_check::check_tables;
use std::alloc::{AllocError, Global};

// Appends the types of formats' immediates.
fn push_field_types(
    alloc: Global,
    text: &mut String,
    formats: &[InstructionFormat],
) -> Result<(), AllocError>
    ensures { OnOk result
        (string_bytes text.new ≡ string_bytes text.old ++ imm_piece (all_fields formats.now)) }
{
    let fields = all_fields(alloc, formats)?;
    push_imm_types(alloc, text, fields.as_slice())
}

// Appends the definitions with which both files begin.
fn push_common(
    alloc: Global,
    text: &mut String,
    formats: &[InstructionFormat],
    instructions: &[Instruction],
) -> Result<(), AllocError>
    ensures { OnOk result
        (string_bytes text.new
        ≡ string_bytes text.old ++ common_piece formats.now instructions.now) }
{
    push_field_types(alloc, text, formats)?;
    push_arrays(alloc, text, formats)?;
    push_data_types(text, formats, instructions)
}

// Appends an instruction of this format, if the file takes it.
fn push_of_format(
    text: &mut String,
    file: InstructionFile,
    format: &InstructionFormat,
    instruction: &Instruction,
) -> Result<(), AllocError>
    ensures { OnOk result
        (string_bytes text.new
        ≡ string_bytes text.old
        ++ instruction_piece (file_case file format.now.has_value_list instruction.now)
        format.now instruction.now) }
{
    match file_manner(file, format.has_value_list, instruction) {
        Some(manner) => push_instruction(text, manner, format, instruction),
        None => Ok(()),
    }
}

// Appends an instruction, if its format is there and the file takes it.
#[tactic(auto, unfolding(crate::specs::TermPieces::row_piece))]
fn push_row(
    text: &mut String,
    file: InstructionFile,
    formats: &[InstructionFormat],
    instruction: &Instruction,
) -> Result<(), AllocError>
    ensures { OnOk result
        (string_bytes text.new
        ≡ string_bytes text.old ++ row_piece file formats.now instruction.now) }
{
    match formats.get(instruction.format) {
        Some(format) => push_of_format(text, file, format, instruction),
        None => Ok(()),
    }
}

// Appends instructions.
fn push_rows(
    text: &mut String,
    file: InstructionFile,
    formats: &[InstructionFormat],
    instructions: &[Instruction],
) -> Result<(), AllocError>
    ensures { OnOk result
        (string_bytes text.new
        ≡ string_bytes text.old ++ flat_map (row_piece file formats.now) instructions.now) }
{
    for instruction in instructions {
        push_row(text, file, formats, instruction)?;
    }
    Ok(())
}

// Appends a file.
fn push_file(
    alloc: Global,
    text: &mut String,
    file: InstructionFile,
    formats: &[InstructionFormat],
    instructions: &[Instruction],
) -> Result<(), AllocError>
    ensures { OnOk result
        (string_bytes text.new
        ≡ string_bytes text.old ++ file_piece file formats.now instructions.now) }
{
    push_common(alloc, text, formats, instructions)?;
    push_rows(text, file, formats, instructions)
}

// The text of a file.
fn file_text(alloc: Global, file: InstructionFile, tables: &Tables) -> Result<String, AllocError>
    ensures { IfOk result (λ text.
        string_bytes text ≡ def_texts (file_defs (file_manner file) tables.now)) }
{
    let mut text = String::new(alloc);
    let formats = tables.formats.as_slice();
    let instructions = tables.instructions.as_slice();
    push_file(alloc, &mut text, file, formats, instructions)?;
    Ok(text)
}

/// Returns the file of an optimizer's instructions, whether the rows of the tables are supported or not (`opt_defs` of
/// `specs/ClifFiles.antt`). The only error is want of memory.
pub fn opt_of(alloc: Global, tables: &Tables) -> Result<String, AllocError>
    ensures { IfOk result (λ text. string_bytes text ≡ def_texts (opt_defs tables.now)) }
{
    file_text(alloc, InstructionFile::Opt, tables)
}

/// Returns the file of lowering's instructions, whether the rows of the tables are supported or not (`lower_defs` of
/// `specs/ClifFiles.antt`). The only error is want of memory.
pub fn lower_of(alloc: Global, tables: &Tables) -> Result<String, AllocError>
    ensures { IfOk result (λ text. string_bytes text ≡ def_texts (lower_defs tables.now)) }
{
    file_text(alloc, InstructionFile::Lower, tables)
}

// The text of a file, if each row of the tables is supported.
#[tactic(auto, using(crate::proofs::FilesWritable::file_spelt))]
fn generated(alloc: Global, file: InstructionFile, tables: &Tables) -> Result<String, TableFail>
    ensures { Generates tables.now (file_defs (file_manner file) tables.now) result }
{
    match check_tables(alloc, tables) {
        Ok(()) => {}
        Err(fail) => return Err(fail),
    }
    let text = file_text(alloc, file, tables)?;
    Ok(text)
}

/// Returns the file of an optimizer's instructions: the types of immediates, arrays and instructions' data, and of
/// each instruction without a list of values a term, its extractor and the rule that makes it. The text spells these
/// definitions, but nothing if one of these instructions is named `pure`, `multi`, `partial` or `rec`. `Unsupported`
/// has the first row of the tables that isn't supported, and the first shape that it breaks; `Memory` says that memory
/// ran out.
pub fn gen_opt(alloc: Global, tables: &Tables) -> Result<String, TableFail>
    ensures { Generates tables.now (opt_defs tables.now) result }
{
    generated(alloc, InstructionFile::Opt, tables)
}

/// Returns the file of lowering's instructions: the types of immediates, arrays and instructions' data, and of each
/// instruction a term and its extractor. What it spells and its errors are as with `gen_opt`.
pub fn gen_lower(alloc: Global, tables: &Tables) -> Result<String, TableFail>
    ensures { Generates tables.now (lower_defs tables.now) result }
{
    generated(alloc, InstructionFile::Lower, tables)
}
