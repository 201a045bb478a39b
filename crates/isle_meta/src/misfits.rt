//! What of an instruction isn't as its format says.

ghost use Rattle.std.specs.Prelude.{◌↔◌, ◌≡◌, ◌||◌, ◌&&◌, IfOk, IsTrue, codes, slice_get};
ghost use Rattle.isle_meta.specs.declared.clif.InstructionFormat.{InstructionFormat as FormatOf};
ghost use Rattle.isle_meta.specs.InstructionRow as Row;
ghost use Rattle.isle_meta.specs.Misfits.{Compares, ComparesIn};
ghost use Rattle.isle_meta.specs.TableNames.{is_among};

use crate::clif::{Instruction, InstructionFormat};
use crate::operands::{
    count_blocks, count_raw_blocks, count_values, count_varargs, imm_types, operand_names,
    types_differ,
};
use isle_spelling::is_among;
use std::alloc::{AllocError, Global};

/// Which shapes an instruction breaks that compare it with its format.
#[derive(Clone, Copy)]
pub struct Misfits {
    pub ty_operand: bool,
    pub value_count: bool,
    pub block_count: bool,
    pub raw_block_count: bool,
    pub imm_count: bool,
    pub imm_type: bool,
    pub no_varargs: bool,
}

// Whether the term takes a type where code is optimized.
fn takes_type_to_optimize(format: &InstructionFormat, instruction: &Instruction) -> bool
    ensures { result ≡ Row.takes_type_to_optimize format.now instruction.now }
{
    !format.has_value_list
        & (instruction.value_results == 1)
        & !instruction.can_trap
        & !instruction.other_side_effects
}

// Whether it takes one where code is lowered.
fn takes_type_to_lower(format: &InstructionFormat, instruction: &Instruction) -> bool
    ensures { result ≡ Row.takes_type_to_lower format.now instruction.now }
{
    !format.has_value_list & (instruction.value_results > 0)
}

// Whether an operand has the name of the type that the term takes.
fn has_ty_operand(
    alloc: Global,
    format: &InstructionFormat,
    instruction: &Instruction,
) -> Result<bool, AllocError>
    ensures { IfOk result (λ found. IsTrue found ↔ Row.TyOperand format.now instruction.now) }
{
    let names = operand_names(alloc, instruction)?;
    let named = is_among("ty", names.as_slice());
    let optimized = takes_type_to_optimize(format, instruction);
    let lowered = takes_type_to_lower(format, instruction);
    Ok((optimized | lowered) & named)
}

// Whether without a value list its values aren't the format's.
fn has_other_values(format: &InstructionFormat, instruction: &Instruction) -> bool
    ensures { IsTrue result ↔ Row.ValueCount format.now instruction.now }
{
    if format.has_value_list {
        return false;
    }
    if count_values(instruction) != format.num_value_operands {
        return true;
    }
    count_varargs(instruction) > 0
}

// Whether it has another number of blocks than the format.
fn has_other_blocks(format: &InstructionFormat, instruction: &Instruction) -> bool
    ensures { IsTrue result ↔ Row.BlockCount format.now instruction.now }
{
    count_blocks(instruction) != format.num_block_operands
}

// Whether it has another number of raw blocks than the format.
fn has_other_raw_blocks(format: &InstructionFormat, instruction: &Instruction) -> bool
    ensures { IsTrue result ↔ Row.RawBlockCount format.now instruction.now }
{
    count_raw_blocks(instruction) != format.num_raw_block_operands
}

// Whether it has another number of immediates than the format, and whether at one place their types differ.
fn has_other_immediates(
    alloc: Global,
    format: &InstructionFormat,
    instruction: &Instruction,
) -> Result<(bool, bool), AllocError>
    ensures count { IfOk result (λ other.
        IsTrue other.0 ↔ Row.ImmCount format.now instruction.now) }
    ensures types { IfOk result (λ other.
        IsTrue other.1 ↔ Row.ImmType format.now instruction.now) }
{
    let types = imm_types(alloc, instruction)?;
    let fields = format.imm_fields.as_slice();
    let differ = types_differ(types.as_slice(), fields);
    Ok((types.len() != fields.len(), differ))
}

// Whether with a value list not exactly one operand stands for any number of values.
fn lacks_varargs(format: &InstructionFormat, instruction: &Instruction) -> bool
    ensures { IsTrue result ↔ Row.NoVarargs format.now instruction.now }
{
    if !format.has_value_list {
        return false;
    }
    count_varargs(instruction) != 1
}

// What isn't as this format says.
fn misfits_beside(
    alloc: Global,
    format: &InstructionFormat,
    instruction: &Instruction,
) -> Result<Misfits, AllocError>
    ensures { IfOk result (λ misfits. Compares misfits format.now instruction.now) }
{
    let ty_operand = has_ty_operand(alloc, format, instruction)?;
    let other = has_other_immediates(alloc, format, instruction)?;
    Ok(Misfits {
        ty_operand,
        value_count: has_other_values(format, instruction),
        block_count: has_other_blocks(format, instruction),
        raw_block_count: has_other_raw_blocks(format, instruction),
        imm_count: other.0,
        imm_type: other.1,
        no_varargs: lacks_varargs(format, instruction),
    })
}

/// Gives what of an instruction isn't as its format among these says; nothing if its format isn't there. The only error
/// is want of memory.
pub fn misfits_among(
    alloc: Global,
    formats: &[InstructionFormat],
    instruction: &Instruction,
) -> Result<Misfits, AllocError>
    ensures { IfOk result (λ misfits. ComparesIn misfits formats.now instruction.now) }
{
    match formats.get(instruction.format) {
        Some(format) => misfits_beside(alloc, format, instruction),
        None => Ok(Misfits {
            ty_operand: false,
            value_count: false,
            block_count: false,
            raw_block_count: false,
            imm_count: false,
            imm_type: false,
            no_varargs: false,
        }),
    }
}
