//! Records of instruction tables, a formatter of generated texts, and the search for the first format or instruction
//! that isn't supported.
#![tactic(auto)]

mod check;
mod clif;
mod errors;
mod faults;
mod formats;
mod formatter;
mod immediates;
mod instructions;
mod kept_names;
mod layout;
mod machine;
mod misfits;
mod operands;
mod paths;
mod pulley;
mod repeats;
mod shapes;
mod tables;

pub use check::checked;
pub use clif::{ClifOperand, ImmField, Instruction, InstructionFormat, OperandClass};
pub use errors::{GenError, TableFail, Unsupported};
pub use formats::unsupported_format;
pub use formatter::{Formatter, Language};
pub use instructions::unsupported_instruction;
pub use kept_names::are_all_identifiers;
pub use layout::joined;
pub use machine::{Alternate, Inst, Mutability, Operand, OperandKind, RegClass};
pub use pulley::PulleyInst;
pub use repeats::{has_repeat, has_repeated_term};
pub use shapes::Shape;
pub use tables::Tables;
