//! Instructions: the declaration of a term, its extractor, and the rule that makes it.

ghost use Rattle.std.specs.Prelude.{◌≡◌, ◌++◌, OnOk, string_bytes, codes};
ghost use Rattle.isle_prelude.specs.FileManners.{making_begin};
ghost use Rattle.isle_prelude.specs.InstructionParts.{names_in, operand_types};
ghost use Rattle.isle_prelude.specs.TermPieces.{declaration_piece, extractor_begin};
ghost use Rattle.isle_prelude.specs.TermPieces.{extractor_piece, head_piece};
ghost use Rattle.isle_prelude.specs.TermPieces.{making_piece, rule_begin, rule_piece, taken_piece};
ghost use Rattle.isle_prelude.specs.TermPieces.{type_piece, types_piece};
ghost use Rattle.isle_writing.specs.Text.{spaced};

use crate::data::push_data;
use crate::manners::Manner;
use crate::operands::operand_type;
use isle_meta::{ClifOperand, Instruction, InstructionFormat};
use isle_printer::push_two;
use std::alloc::AllocError;

// Appends the types of operands, with this before the first and a blank before each other.
fn push_operand_types(
    text: &mut String,
    first: &str,
    operands: &[ClifOperand],
) -> Result<(), AllocError>
    ensures { OnOk result
        (string_bytes text.new
        ≡ string_bytes text.old ++ spaced first.now (operand_types operands.now)) }
{
    let mut before = first;
    for operand in operands {
        push_two(text, before, operand_type(&operand.class))?;
        before = " ";
    }
    Ok(())
}

// Appends the types of a term's parameters.
fn push_types(text: &mut String, typed: bool, operands: &[ClifOperand]) -> Result<(), AllocError>
    ensures { OnOk result
        (string_bytes text.new ≡ string_bytes text.old ++ types_piece typed operands.now) }
{
    if !typed {
        return push_operand_types(text, "", operands);
    }
    text.push_str("Type")?;
    push_operand_types(text, " ", operands)
}

// Appends the declaration of an instruction's term.
fn push_declaration(
    text: &mut String,
    manner: Manner,
    instruction: &Instruction,
) -> Result<(), AllocError>
    ensures { OnOk result
        (string_bytes text.new
        ≡ string_bytes text.old ++ declaration_piece manner instruction.now) }
{
    push_two(text, "(decl ", instruction.name.as_str())?;
    text.push_str(" (")?;
    push_types(text, manner.is_typed(), instruction.operands_in.as_slice())?;
    push_two(text, ") ", manner.ret())?;
    text.push_str(")\n")
}

// Appends the type of the result as a parameter, after a blank, if it is one.
fn push_type(text: &mut String, typed: bool) -> Result<(), AllocError>
    ensures { OnOk result (string_bytes text.new ≡ string_bytes text.old ++ type_piece typed) }
{
    if typed {
        text.push_str(" ty")?;
    }
    Ok(())
}

// Appends the names of operands, each after a blank.
fn push_names(text: &mut String, operands: &[ClifOperand]) -> Result<(), AllocError>
    ensures { OnOk result
        (string_bytes text.new
        ≡ string_bytes text.old ++ spaced (codes " ") (names_in operands.now)) }
{
    for operand in operands {
        push_two(text, " ", operand.name.as_str())?;
    }
    Ok(())
}

// Appends how a definition over the parameters begins.
fn push_head(
    text: &mut String,
    before: &str,
    typed: bool,
    instruction: &Instruction,
) -> Result<(), AllocError>
    ensures { OnOk result
        (string_bytes text.new
        ≡ string_bytes text.old ++ head_piece before.now typed instruction.now) }
{
    push_two(text, before, instruction.name.as_str())?;
    push_type(text, typed)?;
    push_names(text, instruction.operands_in.as_slice())?;
    text.push_str(") ")
}

// How an extractor begins.
#[tactic(auto, unfolding(crate::specs::TermPieces::extractor_begin))]
fn extractor_begin() -> &'static str
    ensures { result.now ≡ extractor_begin }
{
    "(extractor ("
}

// Appends an instruction's extractor.
fn push_extractor(
    text: &mut String,
    manner: Manner,
    format: &InstructionFormat,
    instruction: &Instruction,
) -> Result<(), AllocError>
    ensures { OnOk result
        (string_bytes text.new
        ≡ string_bytes text.old ++ extractor_piece manner format.now instruction.now) }
{
    push_head(text, extractor_begin(), manner.is_typed(), instruction)?;
    text.push_str(manner.taking_begin())?;
    push_data(text, format.has_value_list, "", format, instruction)?;
    text.push_str("))\n")
}

// How a rule begins.
#[tactic(auto, unfolding(crate::specs::TermPieces::rule_begin))]
fn rule_begin() -> &'static str
    ensures { result.now ≡ rule_begin }
{
    "(rule ("
}

// Appends the rule that makes an instruction.
fn push_making_rule(
    text: &mut String,
    begin: &str,
    manner: Manner,
    format: &InstructionFormat,
    instruction: &Instruction,
) -> Result<(), AllocError>
    ensures { OnOk result
        (string_bytes text.new
        ≡ string_bytes text.old ++ rule_piece begin.now manner format.now instruction.now) }
{
    push_head(text, rule_begin(), manner.is_typed(), instruction)?;
    text.push_str(begin)?;
    push_data(text, false, "_ctor", format, instruction)?;
    text.push_str("))\n")
}

// Appends the rule that makes an instruction, if there is a term that makes.
fn push_making(
    text: &mut String,
    manner: Manner,
    format: &InstructionFormat,
    instruction: &Instruction,
) -> Result<(), AllocError>
    ensures { OnOk result
        (string_bytes text.new
        ≡ string_bytes text.old
        ++ making_piece (making_begin manner) manner format.now instruction.now) }
{
    match manner.making_begin() {
        Some(begin) => push_making_rule(text, begin, manner, format, instruction),
        None => Ok(()),
    }
}

/// Appends an instruction taken in a manner. The only error is want of memory.
pub fn push_instruction(
    text: &mut String,
    manner: Manner,
    format: &InstructionFormat,
    instruction: &Instruction,
) -> Result<(), AllocError>
    ensures { OnOk result
        (string_bytes text.new
        ≡ string_bytes text.old ++ taken_piece manner format.now instruction.now) }
{
    push_declaration(text, manner, instruction)?;
    push_extractor(text, manner, format, instruction)?;
    push_making(text, manner, format, instruction)
}
