ghost use Rattle.std.specs.Prelude.{◌≡◌, ◌+◌, ◌-◌, ◌*◌, ◌^◌, ◌≤◌, length, IfOk, IfErr};
ghost use Rattle.std.specs.String.{string_bytes};
ghost use Rattle.isle_core.specs.Inputs.{bytes_each, IsTried};
ghost use Rattle.isle_codegen.specs.Header.{HasHeader};
ghost use Rattle.isle_codegen.specs.Causes.{CompilesTo, IsTextRefusal, IsCompiled, HasCause};

use crate::compile_error::CompileError;
use crate::compiled::compile;
use crate::file_error::FileError;
use crate::source::parse_files;
use isle_core::{CodegenOptions, Dir, Files, ReadError};
use std::alloc::Global;

/// Compiles the named files, and returns the text of the program that their definitions give (`specs/Headline.antt`).
/// `Errors` comes exactly if all were read and something is wrong with them, and reports it (`specs/Errors.antt`);
/// `Name` if nothing else is wrong, and reports the first name that may not be emitted; `Io` reports the first input
/// that is not read. Each name is looked up once, none after that input, and of each input at most 2^24 + 1 bytes are
/// taken.
pub fn from_files<D: Dir>(
    alloc: Global,
    dir: &mut D,
    inputs: &[String],
    options: &CodegenOptions,
) -> Result<String, FileError>
    ensures ok { let names = bytes_each inputs.now in IfOk result
        (λ text. IsCompiled options.now names (D.files dir.old) (string_bytes text)) }
    ensures err { IfErr result (λ e.
        HasCause e options.now (D.files dir.old) (bytes_each inputs.now) (D.counts dir.old)
        (D.counts dir.new)) }
    ensures files { D.files dir.new ≡ D.files dir.old }
    ensures later { (D.counts dir.old).faults ≤ (D.counts dir.new).faults }
    ensures stays { (D.counts dir.old).faults ≡ 2 ^ 64 - 1
        → (D.counts dir.new).faults ≡ 2 ^ 64 - 1 }
    ensures tried { IfOk result (λ text.
        IsTried (length inputs.now) (D.counts dir.old) (D.counts dir.new)) }
    ensures steady { IfOk result (λ text. (D.counts dir.new).faults ≡ (D.counts dir.old).faults) }
    ensures given { (D.counts dir.new).given
        ≤ (D.counts dir.old).given + (2 ^ 24 + 1) * length inputs.now }
{
    match Files::from_paths(alloc, dir, inputs, options.prefixes.as_slice()) {
        Ok(files) => match compile_texts(alloc, &files, options) {
            Ok(text) => Ok(text),
            Err(fail) => Err(fail.with_files(files)),
        },
        Err(ReadError::Io { index, cause }) => Err(FileError::Io { index, cause }),
        Err(ReadError::Memory) => Err(FileError::Memory),
    }
}

/// Compiles texts that are read: returns the text of the program of the definitions that the files' texts spell. There
/// are as many names as texts. Its errors are those of `from_files`, without what reading gives.
pub fn compile_texts(
    alloc: Global,
    files: &Files,
    options: &CodegenOptions,
) -> Result<String, CompileError>
    requires count { length files.now.file_texts ≡ length files.now.file_names }
    ensures header { IfOk result (λ text. HasHeader files.now.file_names (string_bytes text)) }
    ensures ok { IfOk result (λ text. CompilesTo options.now files.now (string_bytes text)) }
    ensures err { IfErr result (λ e. IsTextRefusal e files.now) }
{
    let defs = match parse_files(alloc, files) {
        Ok(defs) => defs,
        Err(fail) => return Err(fail),
    };
    match compile(alloc, files, defs.as_slice(), options) {
        Ok(text) => Ok(text),
        Err(fail) => Err(fail),
    }
}
