//! Tables of instructions, as cases write their rows.

use crate::machine_rows::{inst, operation};
use crate::slip::Slip;
use crate::words::{Words, row_words};
use isle_core::{List, Text};
use isle_meta::{
    ClifOperand, ImmField, Inst, Instruction, InstructionFormat, OperandClass, PulleyInst, Tables,
};
use std::alloc::Global;

// The values of an immediate, if there are any.
fn values(words: &mut Words<'_>) -> Result<Option<List<Text>>, Slip> {
    if !words.takes("(") {
        return Ok(None);
    }
    words.expect("one-of")?;
    let mut values = Vec::new(words.alloc);
    for _ in 0..words.len() {
        if words.takes(")") {
            break;
        }
        values.push(words.text()?)?;
    }
    Ok(Some(List::new(values)))
}

// An immediate of a format.
fn imm(words: &mut Words<'_>) -> Result<ImmField, Slip> {
    words.expect("(")?;
    words.expect("imm")?;
    let imm = ImmField {
        member: words.text()?,
        rust_type: words.text()?,
        values: values(words)?,
    };
    words.expect(")")?;
    Ok(imm)
}

// The immediates of a format, and the end of its row.
fn imms(words: &mut Words<'_>) -> Result<List<ImmField>, Slip> {
    let mut imms = Vec::new(words.alloc);
    for _ in 0..words.len() {
        if words.takes(")") {
            break;
        }
        imms.push(imm(words)?)?;
    }
    Ok(List::new(imms))
}

// A format after its first word.
fn format(words: &mut Words<'_>) -> Result<InstructionFormat, Slip> {
    Ok(InstructionFormat {
        name: words.text()?,
        has_value_list: words.takes("list"),
        num_value_operands: words.counted("values")?,
        num_block_operands: words.counted("blocks")?,
        num_raw_block_operands: words.counted("raw")?,
        typevar_operand: typevar(words)?,
        imm_fields: imms(words)?,
    })
}

// The operand of the controlling type, if it is said.
fn typevar(words: &mut Words<'_>) -> Result<Option<usize>, Slip> {
    match words.second() {
        Some(word) if word == "typevar" => Ok(Some(words.counted("typevar")?)),
        Some(_) | None => Ok(None),
    }
}

// An operand.
fn operand(words: &mut Words<'_>) -> Result<ClifOperand, Slip> {
    words.expect("(")?;
    let kind = words.take();
    let name = words.text()?;
    let class = match kind {
        "value" => OperandClass::Value,
        "varargs" => OperandClass::Varargs,
        "block" => OperandClass::Block,
        "raw" => OperandClass::RawBlock,
        "imm" => OperandClass::Imm(words.text()?),
        _ => return Err(Slip::Table),
    };
    words.expect(")")?;
    Ok(ClifOperand { name, class })
}

// The operands of an instruction.
fn operands(words: &mut Words<'_>) -> Result<List<ClifOperand>, Slip> {
    let mut operands = Vec::new(words.alloc);
    words.expect("(")?;
    words.expect("in")?;
    for _ in 0..words.len() {
        if words.takes(")") {
            break;
        }
        operands.push(operand(words)?)?;
    }
    Ok(List::new(operands))
}

// The place that a number says, or that of the first format of a name.
fn format_place(formats: &[InstructionFormat], name: &str) -> Result<usize, Slip> {
    if let Ok(place) = name.parse::<usize>() {
        return Ok(place);
    }
    for (place, format) in formats.iter().enumerate() {
        if format.name.as_str() == name {
            return Ok(place);
        }
    }
    Err(Slip::Table)
}

// An instruction after its first word.
fn instruction(words: &mut Words<'_>, formats: &[InstructionFormat]) -> Result<Instruction, Slip> {
    let made = Instruction {
        name: words.text()?,
        camel_name: words.text()?,
        format: format_place(formats, words.take())?,
        operands_in: operands(words)?,
        value_results: words.counted("out")?,
        can_trap: words.takes("trap"),
        other_side_effects: words.takes("effect"),
    };
    words.expect(")")?;
    Ok(made)
}

/// The rows that are read so far.
#[derive(Drop)]
struct Rows {
    formats: Vec<InstructionFormat>,
    instructions: Vec<Instruction>,
    x64: Vec<Inst>,
    ops: Vec<PulleyInst>,
    extended_ops: Vec<PulleyInst>,
}

// Reads a row after its parenthesis.
fn read_row(words: &mut Words<'_>, rows: &mut Rows) -> Result<(), Slip> {
    match words.take() {
        "format" => rows.formats.push(format(words)?)?,
        "inst" => rows
            .instructions
            .push(instruction(words, rows.formats.as_slice())?)?,
        "x64" => rows.x64.push(inst(words)?)?,
        "op" => rows.ops.push(operation(words)?)?,
        "ext-op" => rows.extended_ops.push(operation(words)?)?,
        _ => return Err(Slip::Table),
    }
    Ok(())
}

/// Reads the rows of tables: of formats, of instructions after their formats, and of machines.
pub fn tables_of(alloc: Global, text: &str) -> Result<Tables, Slip> {
    let mut words = row_words(alloc, text)?;
    let mut rows = Rows {
        formats: Vec::new(alloc),
        instructions: Vec::new(alloc),
        x64: Vec::new(alloc),
        ops: Vec::new(alloc),
        extended_ops: Vec::new(alloc),
    };
    for _ in 0..words.len() {
        if !words.takes("(") {
            break;
        }
        read_row(&mut words, &mut rows)?;
    }
    words.expect("")?;
    Ok(Tables {
        formats: List::new(rows.formats),
        instructions: List::new(rows.instructions),
        x64: List::new(rows.x64),
        ops: List::new(rows.ops),
        extended_ops: List::new(rows.extended_ops),
    })
}
