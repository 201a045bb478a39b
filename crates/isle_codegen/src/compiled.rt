ghost use Rattle.std.specs.Prelude.{IfOk, IfErr};
ghost use Rattle.std.specs.String.{string_bytes};
ghost use Rattle.isle_ast.specs.Views.{defs as seen};
ghost use Rattle.isle_codegen.specs.Emission.{DefsArePlaced};
ghost use Rattle.isle_codegen.specs.Header.{HasHeader};
ghost use Rattle.isle_codegen.specs.Headline.{HasHeadline, SpellsOne};
ghost use Rattle.isle_codegen.specs.Causes.{IsUncompiled};

use crate::checked::check_defs;
use crate::compile_error::CompileError;
use crate::text::codegen;
use isle_ast::Def;
use isle_core::{CodegenOptions, Files};
use std::alloc::Global;

/// Compiles definitions that stand in the files, and returns the text of the program that they give
/// (`specs/Headline.antt`). The errors are those of `check_defs`.
pub fn compile(
    alloc: Global,
    files: &Files,
    defs: &[Def],
    options: &CodegenOptions,
) -> Result<String, CompileError>
    requires places { DefsArePlaced files.now (seen defs.now) }
    ensures program { IfOk result (λ text. SpellsOne (string_bytes text)) }
    ensures header { IfOk result (λ text. HasHeader files.now.file_names (string_bytes text)) }
    ensures headline { IfOk result (λ text.
        HasHeadline options.now files.now (seen defs.now) (string_bytes text)) }
    ensures err { IfErr result (λ e. IsUncompiled e files.now (seen defs.now)) }
{
    let checked = match check_defs(alloc, files, defs) {
        Ok(checked) => checked,
        Err(fail) => return Err(fail),
    };
    match codegen(
        alloc,
        files,
        &checked.typeenv,
        &checked.termenv,
        checked.terms.as_slice(),
        options,
    ) {
        Ok(text) => Ok(text),
        Err(_) => Err(CompileError::Memory),
    }
}
