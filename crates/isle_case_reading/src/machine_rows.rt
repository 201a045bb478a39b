//! Rows of the assembler and of the interpreter, as cases write them.

use crate::slip::Slip;
use crate::words::Words;
use isle_core::{List, Text};
use isle_meta::{Alternate, Inst, Mutability, Operand, OperandKind, PulleyInst, RegClass};

// Where an operand may lie.
fn kind(words: &mut Words<'_>) -> Result<OperandKind, Slip> {
    match words.take() {
        "imm" => Ok(OperandKind::Imm),
        "gpr" => Ok(OperandKind::Reg(RegClass::Gpr)),
        "xmm" => Ok(OperandKind::Reg(RegClass::Xmm)),
        "fixed-gpr" => Ok(OperandKind::FixedReg(RegClass::Gpr)),
        "fixed-xmm" => Ok(OperandKind::FixedReg(RegClass::Xmm)),
        "gpr-mem" => Ok(OperandKind::RegMem(RegClass::Gpr)),
        "xmm-mem" => Ok(OperandKind::RegMem(RegClass::Xmm)),
        "mem" => Ok(OperandKind::Mem),
        _ => Err(Slip::Table),
    }
}

// What is done with an operand.
fn mutability(words: &mut Words<'_>) -> Result<Mutability, Slip> {
    match words.take() {
        "r" => Ok(Mutability::Read),
        "rw" => Ok(Mutability::ReadWrite),
        "w" => Ok(Mutability::Write),
        _ => Err(Slip::Table),
    }
}

// How many bits an operand has.
fn bits(words: &mut Words<'_>) -> Result<u16, Slip> {
    match words.take().parse::<u16>() {
        Ok(bits) => Ok(bits),
        Err(_) => Err(Slip::Table),
    }
}

// An operand of the assembler after its parenthesis.
fn operand(words: &mut Words<'_>) -> Result<Operand, Slip> {
    let operand = Operand {
        location: words.text()?,
        bits: bits(words)?,
        kind: kind(words)?,
        mutability: mutability(words)?,
        sign_extended: words.takes("signed"),
        align: words.takes("align"),
    };
    words.expect(")")?;
    Ok(operand)
}

// The operands of an assembler's row.
fn operands(words: &mut Words<'_>) -> Result<List<Operand>, Slip> {
    let mut operands = Vec::new(words.alloc);
    words.expect("(")?;
    for _ in 0..words.len() {
        if words.takes(")") {
            break;
        }
        words.expect("(")?;
        operands.push(operand(words)?)?;
    }
    Ok(List::new(operands))
}

// The alternate, if there is one.
fn alternate(words: &mut Words<'_>) -> Result<Option<Alternate>, Slip> {
    if !words.takes("(") {
        return Ok(None);
    }
    words.expect("alt")?;
    let alternate = Alternate {
        name: words.text()?,
        feature: words.text()?,
    };
    words.expect(")")?;
    Ok(Some(alternate))
}

/// Reads a row of the assembler after its first word: its mnemonic, its name, its operands, and what else it does.
pub fn inst(words: &mut Words<'_>) -> Result<Inst, Slip> {
    let inst = Inst {
        mnemonic: words.text()?,
        name: words.text()?,
        operands: operands(words)?,
        reads_flags: words.takes("reads"),
        writes_flags: words.takes("writes"),
        has_trap: words.takes("trap"),
        alternate: alternate(words)?,
    };
    words.expect(")")?;
    Ok(inst)
}

// Words by single blanks, up to the end of their list; `_` is an empty one.
fn joined(words: &mut Words<'_>) -> Result<String, Slip> {
    let mut text = String::new(words.alloc);
    for k in 0..words.len() {
        if words.takes(")") {
            break;
        }
        if k > 0 {
            text.push_str(" ")?;
        }
        if !words.takes("_") {
            text.push_str(words.take())?;
        }
    }
    Ok(text)
}

// Types of binary operands, with commas between them, up to the end of their list.
fn binary(words: &mut Words<'_>) -> Result<String, Slip> {
    let mut text = String::from_str(words.alloc, "BinaryOperands < ")?;
    for k in 0..words.len() {
        if words.takes(")") {
            break;
        }
        if k > 0 {
            text.push_str(", ")?;
        }
        text.push_str(words.take())?;
    }
    text.push_str(" >")?;
    Ok(text)
}

// A type: a word; types of binary operands; a set of registers; or words as they are written.
fn field_type(words: &mut Words<'_>) -> Result<Text, Slip> {
    if !words.takes("(") {
        return words.text();
    }
    let text = match words.take() {
        "binary" => binary(words)?,
        "upper" => {
            words.expect(")")?;
            return Ok(Text::copied(words.alloc, "UpperRegSet < XReg >")?);
        }
        "words" => joined(words)?,
        _ => return Err(Slip::Table),
    };
    Ok(Text::copied(words.alloc, text.as_str())?)
}

/// Reads a row of the interpreter after its first word: its two names, and its fields.
pub fn operation(words: &mut Words<'_>) -> Result<PulleyInst, Slip> {
    let snake_name = words.text()?;
    let name = words.text()?;
    let mut fields = Vec::new(words.alloc);
    for _ in 0..words.len() {
        if words.takes(")") {
            break;
        }
        words.expect("(")?;
        let field = (words.text()?, field_type(words)?);
        words.expect(")")?;
        fields.push(field)?;
    }
    Ok(PulleyInst {
        snake_name,
        name,
        fields: List::new(fields),
    })
}
