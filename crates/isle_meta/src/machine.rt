//! The rows of the x64 assembler.

use isle_core::{List, Text};

/// The class of a register.
#[derive(Clone, Copy, Debug, PartialEq, Eq)]
pub enum RegClass {
    Gpr,
    Xmm,
}

/// Where an operand may lie.
#[derive(Clone, Copy, Debug, PartialEq, Eq)]
pub enum OperandKind {
    Imm,
    Reg(RegClass),
    FixedReg(RegClass),
    RegMem(RegClass),
    Mem,
}

/// What an instruction does with an operand.
#[derive(Clone, Copy, Debug, PartialEq, Eq)]
pub enum Mutability {
    Read,
    ReadWrite,
    Write,
}

/// An operand of an assembler instruction, named by its location.
#[derive(Debug, Drop)]
pub struct Operand {
    pub location: Text,
    pub bits: u16,
    pub kind: OperandKind,
    pub mutability: Mutability,
    pub sign_extended: bool,
    /// Whether the place in memory must be aligned.
    pub align: bool,
}

/// The instruction that stands for another one on a processor with a feature.
#[derive(Debug, Drop)]
pub struct Alternate {
    pub name: Text,
    pub feature: Text,
}

/// An assembler instruction.
#[derive(Debug, Drop)]
pub struct Inst {
    pub mnemonic: Text,
    pub name: Text,
    pub operands: List<Operand>,
    pub reads_flags: bool,
    pub writes_flags: bool,
    pub has_trap: bool,
    pub alternate: Option<Alternate>,
}
