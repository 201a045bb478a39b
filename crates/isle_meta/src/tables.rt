//! All tables of instructions.

use crate::clif::{Instruction, InstructionFormat};
use crate::machine::Inst;
use crate::pulley::PulleyInst;
use isle_core::List;

/// The tables that a compiler's preludes are generated from.
#[derive(Debug, Drop)]
pub struct Tables {
    pub formats: List<InstructionFormat>,
    pub instructions: List<Instruction>,
    pub x64: List<Inst>,
    pub ops: List<PulleyInst>,
    pub extended_ops: List<PulleyInst>,
}
