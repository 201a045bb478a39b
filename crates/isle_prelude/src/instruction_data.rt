//! What instructions are as values of rules: an opcode, operands and immediates, by their format.

ghost use Rattle.std.specs.Prelude.{◌≡◌, ◌++◌, OnOk, string_bytes, codes, []};
ghost use Rattle.std.specs.List.{flat_map};
ghost use Rattle.isle_prelude.specs.TypePieces.{block_fields_piece, data_types_piece, enum_piece};
ghost use Rattle.isle_prelude.specs.TypePieces.{fields_piece};
ghost use Rattle.isle_prelude.specs.TypePieces.{format_line, imm_field_piece, numbered};
ghost use Rattle.isle_prelude.specs.TypePieces.{opcode_field};
ghost use Rattle.isle_prelude.specs.TypePieces.{opcode_line, raw_block_piece, value_fields_piece};
ghost use Rattle.isle_writing.specs.Text.{field_text};

use crate::paths::short_name;
use crate::pieces::push_then_numbered;
use crate::types::{push_bare_line, push_enum_head};
use isle_meta::{ImmField, Instruction, InstructionFormat};
use isle_printer::{push_around, push_two};
use std::alloc::AllocError;

// Appends a field and its type, after a blank.
fn push_field(text: &mut String, member: &str, ty: &str) -> Result<(), AllocError>
    ensures { OnOk result
        (string_bytes text.new ≡ string_bytes text.old ++ field_text member.now ty.now) }
{
    push_around(text, " (", member, " ")?;
    push_two(text, ty, ")")
}

// Appends the field of an array of so many things, whose type begins so, after a blank.
fn push_array_field(text: &mut String, member: &str, head: &str, n: usize) -> Result<(), AllocError>
    ensures { OnOk result
        (string_bytes text.new
        ≡ string_bytes text.old ++ field_text member.now (numbered head.now n)) }
{
    push_two(text, " (", member)?;
    push_then_numbered(text, " ", head, n)?;
    text.push_str(")")
}

// Appends the field of a format's values.
fn push_value_fields(text: &mut String, has_list: bool, n: usize) -> Result<(), AllocError>
    ensures { OnOk result
        (string_bytes text.new ≡ string_bytes text.old ++ value_fields_piece has_list n) }
{
    if has_list {
        return push_field(text, "args", "ValueList");
    }
    match n {
        0 => Ok(()),
        1 => push_field(text, "arg", "Value"),
        _ => push_array_field(text, "args", "ValueArray", n),
    }
}

// Appends the field of a format's blocks.
fn push_block_fields(text: &mut String, n: usize) -> Result<(), AllocError>
    ensures { OnOk result
        (string_bytes text.new ≡ string_bytes text.old ++ block_fields_piece n) }
{
    match n {
        0 => Ok(()),
        1 => push_field(text, "destination", "BlockCall"),
        _ => push_array_field(text, "blocks", "BlockArray", n),
    }
}

// Appends the field of a block without arguments.
fn push_raw_block(text: &mut String, n: usize) -> Result<(), AllocError>
    ensures { OnOk result (string_bytes text.new ≡ string_bytes text.old ++ raw_block_piece n) }
{
    if n == 0 {
        return Ok(());
    }
    push_field(text, "block", "Block")
}

// Appends the field of an immediate.
fn push_imm_field(text: &mut String, field: &ImmField) -> Result<(), AllocError>
    ensures { OnOk result
        (string_bytes text.new ≡ string_bytes text.old ++ imm_field_piece field.now) }
{
    push_field(
        text,
        field.member.as_str(),
        short_name(field.rust_type.as_str()),
    )
}

// Appends the fields of immediates.
fn push_imm_fields(text: &mut String, fields: &[ImmField]) -> Result<(), AllocError>
    ensures { OnOk result
        (string_bytes text.new ≡ string_bytes text.old ++ flat_map imm_field_piece fields.now) }
{
    for field in fields {
        push_imm_field(text, field)?;
    }
    Ok(())
}

// Appends the fields of a format's instructions beside the opcode.
fn push_fields(text: &mut String, format: &InstructionFormat) -> Result<(), AllocError>
    ensures { OnOk result
        (string_bytes text.new ≡ string_bytes text.old ++ fields_piece format.now) }
{
    push_value_fields(text, format.has_value_list, format.num_value_operands)?;
    push_block_fields(text, format.num_block_operands)?;
    push_raw_block(text, format.num_raw_block_operands)?;
    push_imm_fields(text, format.imm_fields.as_slice())
}

// The field of the opcode.
#[tactic(auto, unfolding(crate::specs::TypePieces::opcode_field))]
fn opcode_field() -> &'static str
    ensures { result.now ≡ opcode_field }
{
    " (opcode Opcode)"
}

// Appends the variant of a format, on a line of its own.
#[tactic(auto, unfolding(crate::specs::TypePieces::format_line))]
fn push_format_line(text: &mut String, format: &InstructionFormat) -> Result<(), AllocError>
    ensures { OnOk result
        (string_bytes text.new ≡ string_bytes text.old ++ format_line format.now) }
{
    push_around(text, "\n  (", format.name.as_str(), opcode_field())?;
    push_fields(text, format)?;
    text.push_str(")")
}

// Appends the variants of formats, each on a line of its own.
fn push_format_lines(text: &mut String, formats: &[InstructionFormat]) -> Result<(), AllocError>
    ensures { OnOk result
        (string_bytes text.new ≡ string_bytes text.old ++ flat_map format_line formats.now) }
{
    for format in formats {
        push_format_line(text, format)?;
    }
    Ok(())
}

// Appends the opcode of an instruction, on a line of its own.
#[tactic(auto, unfolding(crate::specs::TypePieces::opcode_line))]
fn push_opcode_line(text: &mut String, instruction: &Instruction) -> Result<(), AllocError>
    ensures { OnOk result
        (string_bytes text.new ≡ string_bytes text.old ++ opcode_line instruction.now) }
{
    push_bare_line(text, instruction.camel_name.as_str())
}

// Appends the opcodes of instructions, each on a line of its own.
fn push_opcode_lines(text: &mut String, instructions: &[Instruction]) -> Result<(), AllocError>
    ensures { OnOk result
        (string_bytes text.new ≡ string_bytes text.old ++ flat_map opcode_line instructions.now) }
{
    for instruction in instructions {
        push_opcode_line(text, instruction)?;
    }
    Ok(())
}

// Appends the type of blocks.
fn push_blocks_type(text: &mut String) -> Result<(), AllocError>
    ensures { OnOk result
        (string_bytes text.new ≡ string_bytes text.old ++ enum_piece (codes "Block") []) }
{
    push_enum_head(text, "Block")?;
    text.push_str("))\n")
}

// Appends the type of opcodes.
fn push_opcodes(text: &mut String, instructions: &[Instruction]) -> Result<(), AllocError>
    ensures { OnOk result
        (string_bytes text.new
        ≡ string_bytes text.old
        ++ enum_piece (codes "Opcode") (flat_map opcode_line instructions.now)) }
{
    push_enum_head(text, "Opcode")?;
    push_opcode_lines(text, instructions)?;
    text.push_str("))\n")
}

// Appends the type of instructions' data.
fn push_data_type(text: &mut String, formats: &[InstructionFormat]) -> Result<(), AllocError>
    ensures { OnOk result
        (string_bytes text.new
        ≡ string_bytes text.old
        ++ enum_piece (codes "InstructionData") (flat_map format_line formats.now)) }
{
    push_enum_head(text, "InstructionData")?;
    push_format_lines(text, formats)?;
    text.push_str("))\n")
}

/// Appends the types of blocks, opcodes and instructions' data. The only error is want of memory.
pub fn push_data_types(
    text: &mut String,
    formats: &[InstructionFormat],
    instructions: &[Instruction],
) -> Result<(), AllocError>
    ensures { OnOk result
        (string_bytes text.new
        ≡ string_bytes text.old ++ data_types_piece formats.now instructions.now) }
{
    push_blocks_type(text)?;
    push_opcodes(text, instructions)?;
    push_data_type(text, formats)
}
