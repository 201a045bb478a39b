//! The rows of an assembler: what is read of an instruction, the names of its terms, and the first instruction that
//! isn't supported.
#![tactic(auto)]

mod constructor;
mod constructors;
mod faults;
mod operands;
mod rows;
mod term_names;

pub use constructor::Constructor;
pub use constructors::{Chosen, constructors_of};
pub use operands::{is_raw, is_read, is_reg_mem, is_register, is_written, may_be_memory, written};
pub use rows::unsupported_inst;
pub use term_names::{is_left_out, push_choice_term, push_made_term, push_raw_term};
