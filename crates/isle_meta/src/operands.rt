//! The operands of instructions, by their classes.

ghost use Rattle.std.specs.Prelude.{◌≡◌, List, ℕ, map, option_map, IfOk};
ghost use denote.Ref.{Bor};
ghost use Rattle.isle_meta.specs.declared.clif.ImmField.{ImmField as FieldRow};
ghost use Rattle.isle_meta.specs.InstructionRow as Row;
ghost use Rattle.isle_meta.specs.TableNames.{texts};

use crate::clif::{ImmField, Instruction, OperandClass};
use crate::paths::short_name;
use std::alloc::{AllocError, Global};

// Whether an operand is a value.
fn is_value(class: &OperandClass) -> bool
    ensures { result ≡ Row.is_value class.now }
{
    matches!(class, OperandClass::Value)
}

// Whether an operand stands for any number of values.
fn is_varargs(class: &OperandClass) -> bool
    ensures { result ≡ Row.is_varargs class.now }
{
    matches!(class, OperandClass::Varargs)
}

// Whether an operand is a block with its arguments.
fn is_block(class: &OperandClass) -> bool
    ensures { result ≡ Row.is_block class.now }
{
    matches!(class, OperandClass::Block)
}

// Whether an operand is a raw block.
fn is_raw_block(class: &OperandClass) -> bool
    ensures { result ≡ Row.is_raw_block class.now }
{
    matches!(class, OperandClass::RawBlock)
}

/// Counts the values among an instruction's operands.
pub fn count_values(instruction: &Instruction) -> usize
    ensures { result ≡ Row.count_of Row.is_value instruction.now }
{
    let operands = instruction.operands_in.as_slice();
    operands.iter().filter(|o| is_value(&o.class)).count()
}

/// Counts the operands that stand for any number of values.
pub fn count_varargs(instruction: &Instruction) -> usize
    ensures { result ≡ Row.count_of Row.is_varargs instruction.now }
{
    let operands = instruction.operands_in.as_slice();
    operands.iter().filter(|o| is_varargs(&o.class)).count()
}

/// Counts the blocks among an instruction's operands.
pub fn count_blocks(instruction: &Instruction) -> usize
    ensures { result ≡ Row.count_of Row.is_block instruction.now }
{
    let operands = instruction.operands_in.as_slice();
    operands.iter().filter(|o| is_block(&o.class)).count()
}

/// Counts the raw blocks among an instruction's operands.
pub fn count_raw_blocks(instruction: &Instruction) -> usize
    ensures { result ≡ Row.count_of Row.is_raw_block instruction.now }
{
    let operands = instruction.operands_in.as_slice();
    operands.iter().filter(|o| is_raw_block(&o.class)).count()
}

/// Gives the names of an instruction's operands, in order. The only error is want of memory.
pub fn operand_names<'t>(
    alloc: Global,
    instruction: &'t Instruction,
) -> Result<Vec<&'t str>, AllocError>
    ensures { IfOk result (λ names. texts names.items ≡ Row.operand_names instruction.now) }
{
    let mut names = Vec::new(alloc);
    for operand in instruction.operands_in.as_slice() {
        names.push(operand.name.as_str())?;
    }
    Ok(names)
}

// The type of an immediate operand.
fn type_in(class: &OperandClass) -> Option<&str>
    ensures { option_map (λ (ty : Bor (List ℕ)). ty.now) result ≡ Row.type_in class.now }
{
    match class {
        OperandClass::Imm(ty) => Some(ty.as_str()),
        OperandClass::Value
        | OperandClass::Varargs
        | OperandClass::Block
        | OperandClass::RawBlock => None,
    }
}

/// Gives the types of an instruction's immediate operands, in order. The only error is want of memory.
pub fn imm_types<'t>(
    alloc: Global,
    instruction: &'t Instruction,
) -> Result<Vec<&'t str>, AllocError>
    ensures { IfOk result (λ types. texts types.items ≡ Row.imm_types instruction.now) }
{
    let mut types = Vec::new(alloc);
    for operand in instruction.operands_in.as_slice() {
        if let Some(ty) = type_in(&operand.class) {
            types.push(ty)?;
        }
    }
    Ok(types)
}

/// Tells whether at one place the short name of a type isn't that of the field's.
pub fn types_differ(types: &[&str], fields: &[ImmField]) -> bool
    ensures { result ≡ Row.types_differ (texts types.now)
        (map (λ (field : FieldRow). field.rust_type) fields.now) }
{
    for (at, ty) in types.iter().enumerate() {
        let Some(field) = fields.get(at) else {
            return false;
        };
        if short_name(ty) != short_name(field.rust_type.as_str()) {
            return true;
        }
    }
    false
}
