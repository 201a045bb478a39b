//! What the functions of all terms are made from.

ghost use Rattle.std.specs.Prelude.{◌≡◌, map};
ghost use Rattle.isle_core.specs.LineStarts.{starts_of};

use isle_core::{CodegenOptions, Files, LineStarts, TermEnv, TypeEnv};
use isle_operands::ConstTypes;

/// What the functions of all terms are made from: the files with the starts of their lines, the environment with the
/// types of its constants, and what is asked for.
#[derive(Clone, Copy)]
pub struct Sources<'a> {
    pub files: &'a Files,
    pub starts: &'a LineStarts,
    pub typeenv: &'a TypeEnv,
    pub termenv: &'a TermEnv,
    pub consts: &'a ConstTypes<'a>,
    pub options: &'a CodegenOptions,
    pub ghost table: { starts.now ≡ map starts_of files.now.file_texts },
    pub ghost known: { consts.now ≡ typeenv.now.consts },
}
