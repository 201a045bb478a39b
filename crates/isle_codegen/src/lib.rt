//! From rule files to the text of a target program.
#![tactic(auto)]

mod checked;
mod compile_error;
mod compiled;
mod file_error;
mod files;
mod parse_error;
mod source;
mod text;
mod tree;

pub use checked::{Checked, check_defs, check_files};
pub use compile_error::CompileError;
pub use compiled::compile;
pub use file_error::FileError;
pub use files::{compile_texts, from_files};
pub use isle_checks::recursion;
pub use isle_emission::{block_weight, emit_term};
pub use isle_lawful_names::{NameError, NameFail, NameUse, lawful_names};
pub use text::{codegen, program_text};
pub use tree::codegen_tree;
