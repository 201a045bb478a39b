//! The numeric prelude: which operations each fixed-width integer type has, what each is called, and what it means.
#![tactic(auto)]

mod arithmetic;
mod bitwise;
mod comparison;
mod conversion;
mod count;
mod eval;
mod exact;
mod negation;
mod numbers;
mod numeric_type;
mod operation;
mod operation_rows;
mod predicate;
mod shift;
mod table;

pub use conversion::{Conversion, conversions, is_lossless, is_other};
pub use eval::{OpResult, eval_op};
pub use numeric_type::NumericType;
pub use operation::{
    Arithmetic, Bitwise, Comparison, Count, Gives, Negation, Operation, Predicate, Shift, Takes,
};
pub use table::{NumericOp, given, operations, ops_for_type};
