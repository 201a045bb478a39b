//! The rows of Cranelift's instruction formats and of its instructions.

use isle_core::{List, Text};

/// An immediate of a format: its field in the instruction's data, its Rust type, and if that is an enum the values
/// that it has.
#[derive(Debug, Drop)]
pub struct ImmField {
    pub member: Text,
    pub rust_type: Text,
    pub values: Option<List<Text>>,
}

/// What the instructions of a format have in common: how many operands of each kind, and which immediates.
#[derive(Debug, Drop)]
pub struct InstructionFormat {
    pub name: Text,
    /// Whether the values stand in a list of any length.
    pub has_value_list: bool,
    pub num_value_operands: usize,
    pub num_block_operands: usize,
    pub num_raw_block_operands: usize,
    pub imm_fields: List<ImmField>,
    /// The value operand whose type is the instruction's controlling type.
    pub typevar_operand: Option<usize>,
}

/// What an operand of an instruction is. An immediate has its Rust type.
#[derive(Debug, Drop)]
pub enum OperandClass {
    Value,
    /// Any number of values.
    Varargs,
    /// A block with its arguments.
    Block,
    RawBlock,
    Imm(Text),
}

/// An operand of an instruction.
#[derive(Debug, Drop)]
pub struct ClifOperand {
    pub name: Text,
    pub class: OperandClass,
}

/// An instruction, with the place of its format among the formats.
#[derive(Debug, Drop)]
pub struct Instruction {
    pub name: Text,
    pub camel_name: Text,
    pub format: usize,
    pub operands_in: List<ClifOperand>,
    pub value_results: usize,
    pub can_trap: bool,
    pub other_side_effects: bool,
}
