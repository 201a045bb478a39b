//! The files of preludes that are generated from tables of instructions.
#![tactic(auto)]

mod names;
mod numerics;
mod preludes;
mod texts;
mod writing;

pub use numerics::gen_numerics;
pub use preludes::generate;
pub use writing::{Output, write_files};
