//! What the function of a term is made from.

ghost use Rattle.std.specs.Prelude.{◌≡◌, map};
ghost use Rattle.isle_core.specs.LineStarts.{starts_of};

use isle_core::{CodegenOptions, Files, LineStarts};
use isle_operands::Typed;
use std::alloc::Global;

/// What the function of a term is made from: the term in its environment, the bindings of its rules with their types,
/// the files with the starts of their lines, what is asked for, and whether the statements stand in a closure.
#[derive(Clone, Copy)]
pub struct Emitter<'a> {
    pub alloc: Global,
    pub typed: Typed<'a>,
    pub files: &'a Files,
    pub starts: &'a LineStarts,
    pub options: &'a CodegenOptions,
    pub inside: bool,
    pub ghost table: { starts.now ≡ map starts_of files.now.file_texts },
}
