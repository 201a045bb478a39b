//! The tables of the program itself.

ghost use Rattle.std.specs.Prelude.{◌≡◌, ◌∷◌, [], IfOk, codes};
ghost use Rattle.isle_table_check.specs.SupportedTables.{AreSupported};
ghost use Rattle.isle_table_check.specs.ProgramTables.{
  binary,
  format_of,
  iconst,
  imm64,
  instruction,
  of_two_values,
  operand,
  sample_tables,
  unary_imm,
};

use isle_core::{List, OutOfMemory, Text};
use isle_meta::{ClifOperand, ImmField, Instruction, InstructionFormat, OperandClass, Tables};
use std::alloc::Global;

// The Rust type of immediates of 64 bits.
fn imm64() -> &'static str
    ensures { result.now ≡ imm64 }
{
    "ir::immediates::Imm64"
}

// A format without lists or blocks.
fn format_of(
    alloc: Global,
    name: &str,
    values: usize,
    imms: Vec<ImmField>,
    typevar: Option<usize>,
) -> Result<InstructionFormat, OutOfMemory>
    ensures { IfOk result (λ f. f ≡ format_of name.now values imms.items typevar) }
{
    Ok(InstructionFormat {
        name: Text::copied(alloc, name)?,
        has_value_list: false,
        num_value_operands: values,
        num_block_operands: 0,
        num_raw_block_operands: 0,
        imm_fields: List::new(imms),
        typevar_operand: typevar,
    })
}

// The format of an immediate.
fn unary_imm(alloc: Global) -> Result<InstructionFormat, OutOfMemory>
    ensures { IfOk result (λ f. f ≡ unary_imm) }
{
    let imm = ImmField {
        member: Text::copied(alloc, "imm")?,
        rust_type: Text::copied(alloc, imm64())?,
        values: None,
    };
    format_of(alloc, "UnaryImm", 0, vec![in alloc; imm]?, None)
}

// The formats.
fn formats(alloc: Global) -> Result<List<InstructionFormat>, OutOfMemory>
    ensures { IfOk result (λ fs. fs ≡ binary ∷ unary_imm ∷ []) }
{
    let binary = format_of(alloc, "Binary", 2, Vec::new(alloc), Some(0))?;
    let unary_imm = unary_imm(alloc)?;
    Ok(List::new(vec![in alloc; binary, unary_imm]?))
}

// An operand.
fn operand(alloc: Global, name: &str, class: OperandClass) -> Result<ClifOperand, OutOfMemory>
    ensures { IfOk result (λ o. o ≡ operand name.now class) }
{
    Ok(ClifOperand {
        name: Text::copied(alloc, name)?,
        class,
    })
}

// An instruction with one result, that neither traps nor has other effects.
fn instruction(
    alloc: Global,
    name: &str,
    camel: &str,
    format: usize,
    operands: Vec<ClifOperand>,
) -> Result<Instruction, OutOfMemory>
    ensures { IfOk result (λ i. i ≡ instruction name.now camel.now format operands.items) }
{
    Ok(Instruction {
        name: Text::copied(alloc, name)?,
        camel_name: Text::copied(alloc, camel)?,
        format,
        operands_in: List::new(operands),
        value_results: 1,
        can_trap: false,
        other_side_effects: false,
    })
}

// An instruction of two values.
fn of_two_values(alloc: Global, name: &str, camel: &str) -> Result<Instruction, OutOfMemory>
    ensures { IfOk result (λ i. i ≡ of_two_values name.now camel.now) }
{
    let x = operand(alloc, "x", OperandClass::Value)?;
    let y = operand(alloc, "y", OperandClass::Value)?;
    instruction(alloc, name, camel, 0, vec![in alloc; x, y]?)
}

// A constant.
fn iconst(alloc: Global) -> Result<Instruction, OutOfMemory>
    ensures { IfOk result (λ i. i ≡ iconst) }
{
    let class = OperandClass::Imm(Text::copied(alloc, imm64())?);
    let number = operand(alloc, "N", class)?;
    instruction(alloc, "iconst", "Iconst", 1, vec![in alloc; number]?)
}

// The instructions.
fn instructions(alloc: Global) -> Result<List<Instruction>, OutOfMemory>
    ensures { IfOk result (λ is. is ≡ sample_tables.instructions) }
{
    let iadd = of_two_values(alloc, "iadd", "Iadd")?;
    let isub = of_two_values(alloc, "isub", "Isub")?;
    let iconst = iconst(alloc)?;
    Ok(List::new(vec![in alloc; iadd, isub, iconst]?))
}

/// Returns the tables that the program hands to `run_words`: addition and subtraction of two values, and constants; no
/// rows of machines (`specs/ProgramTables.antt`). Each row is supported. The only error is want of memory.
#[tactic(auto, using(crate::proofs::ProgramTables::sample_supported))]
pub fn sample_tables(alloc: Global) -> Result<Tables, OutOfMemory>
    ensures tables { IfOk result (λ tables. tables ≡ sample_tables) }
    ensures supported { AreSupported sample_tables }
{
    Ok(Tables {
        formats: formats(alloc)?,
        instructions: instructions(alloc)?,
        x64: List::new(Vec::new(alloc)),
        ops: List::new(Vec::new(alloc)),
        extended_ops: List::new(Vec::new(alloc)),
    })
}
