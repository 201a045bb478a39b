//! From rule files to the text of a target program: `from_files`, and each step of it by itself. What is emitted stands
//! in `docs/TARGET.md`, and which names may be in `docs/LANGUAGE.md`.

pub use isle_codegen::{
    Checked, CompileError, FileError, NameError, NameFail, NameUse, block_weight, check_defs,
    check_files, codegen, codegen_tree, compile, emit_term, from_files, lawful_names, recursion,
};
pub use isle_core::{CodegenOptions, Prefix};
