//! The rows of the Pulley interpreter's operations: their operands, and which rows aren't supported.
#![tactic(auto)]

mod answers;
mod binary;
mod check;
mod faults;
mod fields;
mod gathered;
mod names;
mod operand;
mod operation;
mod refused;
mod terms;
mod words;

pub use answers::results;
pub use gathered::operations;
pub use operand::Operand;
pub use operation::Operation;
pub use refused::{check_rows, unsupported_operation};
pub use words::{begins_with, is_register};
