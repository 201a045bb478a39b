use isle_core::{List, Text};
use isle_meta::{ClifOperand, Inst, InstructionFormat, PulleyInst};

/// An instruction as it is written: its format is named, at a place of the text.
#[derive(Drop)]
pub struct InstRow {
    pub name: Text,
    pub camel_name: Text,
    pub format: Text,
    /// The place where the format's name begins.
    pub format_at: usize,
    pub operands_in: List<ClifOperand>,
    pub value_results: usize,
    pub can_trap: bool,
    pub other_side_effects: bool,
}

/// An item of written tables.
#[derive(Drop)]
pub enum Item {
    Format(InstructionFormat),
    Inst(InstRow),
    X64(Inst),
    Op(PulleyInst),
    ExtOp(PulleyInst),
}

/// What an item is.
#[derive(Clone, Copy)]
pub enum ItemHead {
    Format,
    Inst,
    X64,
    Op,
    ExtOp,
}
