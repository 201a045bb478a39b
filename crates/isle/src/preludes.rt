//! Preludes: tables of instructions, which of their rows isn't supported, the texts that are written from them, and
//! those of numbers. `docs/LANGUAGE.md` says what they give a rule.

pub use isle_assembler::gen_asm;
pub use isle_meta::{
    Alternate, ClifOperand, Formatter, GenError, ImmField, Inst, Instruction, InstructionFormat,
    Language, Mutability, Operand, OperandClass, OperandKind, PulleyInst, RegClass, Shape,
    TableFail, Tables, Unsupported,
};
pub use isle_numeric_methods::numerics_rust;
pub use isle_numeric_text::numerics_isle;
pub use isle_numerics::{NumericOp, NumericType, OpResult, eval_op, ops_for_type};
pub use isle_prelude::{gen_lower, gen_opt};
pub use isle_prelude_files::{gen_numerics, generate};
pub use isle_pulley::pulley;
pub use isle_table_check::check_tables;
