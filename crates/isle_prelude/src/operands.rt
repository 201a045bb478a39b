//! The operands of an instruction, by kind.

ghost use Rattle.std.specs.Prelude.{◌≡◌, ◌++◌, OnOk, string_bytes};
ghost use Rattle.isle_meta.specs.InstructionRow.{count_of, is_block, is_value};
ghost use Rattle.isle_prelude.specs.Kinds.{is_of};
ghost use Rattle.isle_prelude.specs.Operands.{operand_type};
ghost use Rattle.isle_prelude.specs.TermPieces.{kind_piece};

use crate::paths::short_name;
use isle_meta::{Instruction, OperandClass};
use isle_printer::push_two;
use std::alloc::AllocError;

/// A kind of operands.
#[derive(Clone, Copy)]
pub enum Kind {
    Value,
    Varargs,
    Block,
    RawBlock,
    Imm,
}

/// Returns the type of an operand in rules.
pub fn operand_type(class: &OperandClass) -> &str
    ensures { result.now ≡ operand_type class.now }
{
    match class {
        OperandClass::Value => "Value",
        OperandClass::Varargs => "ValueSlice",
        OperandClass::Block => "BlockCall",
        OperandClass::RawBlock => "Block",
        OperandClass::Imm(rust_type) => short_name(rust_type.as_str()),
    }
}

// Whether an operand is of the kind.
fn is_of(kind: Kind, class: &OperandClass) -> bool
    ensures { result ≡ is_of kind class.now }
{
    match kind {
        Kind::Value => matches!(class, OperandClass::Value),
        Kind::Varargs => matches!(class, OperandClass::Varargs),
        Kind::Block => matches!(class, OperandClass::Block),
        Kind::RawBlock => matches!(class, OperandClass::RawBlock),
        Kind::Imm => matches!(class, OperandClass::Imm(_)),
    }
}

/// Counts the values among an instruction's operands.
pub fn count_values(instruction: &Instruction) -> usize
    ensures { result ≡ count_of is_value instruction.now }
{
    let operands = instruction.operands_in.as_slice();
    operands
        .iter()
        .filter(|o| is_of(Kind::Value, &o.class))
        .count()
}

/// Counts the blocks with their arguments among an instruction's operands.
pub fn count_blocks(instruction: &Instruction) -> usize
    ensures { result ≡ count_of is_block instruction.now }
{
    let operands = instruction.operands_in.as_slice();
    operands
        .iter()
        .filter(|o| is_of(Kind::Block, &o.class))
        .count()
}

/// Appends the names of an instruction's operands of a kind, each after a blank. The only error is want of memory.
pub fn push_kind(text: &mut String, kind: Kind, instruction: &Instruction) -> Result<(), AllocError>
    ensures { OnOk result
        (string_bytes text.new
        ≡ string_bytes text.old ++ kind_piece (is_of kind) instruction.now) }
{
    for operand in instruction.operands_in.as_slice() {
        if is_of(kind, &operand.class) {
            push_two(text, " ", operand.name.as_str())?;
        }
    }
    Ok(())
}
