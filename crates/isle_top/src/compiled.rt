//! The text of the program of files.

ghost use Rattle.std.specs.Prelude.{◌≡◌, ◌≤◌, IfOk, IfErr, ◌+◌, ◌*◌, ◌^◌, length, ◌-◌};
ghost use Rattle.std.specs.String.{string_bytes};
ghost use Rattle.isle_core.specs.Inputs.{bytes_each};
ghost use Rattle.isle_codegen.specs.Causes.{IsCompiled, HasCause, AllTried};

use isle_codegen::{FileError, from_files};
use isle_core::{CodegenOptions, Dir, OutOfMemory, Text};
use std::alloc::Global;

// The names as strings, in order.
fn strings_of(alloc: Global, names: &[Text]) -> Result<Vec<String>, OutOfMemory>
    ensures { IfOk result (λ strings. bytes_each strings.items ≡ names.now) }
{
    let mut strings = Vec::new(alloc);
    for name in names {
        strings.push(String::from_str(alloc, name.as_str())?)?;
    }
    Ok(strings)
}

/// Compiles the files of the names, and returns the text of their program (`specs/CompileLine.antt`).
pub fn compiled<D: Dir>(
    alloc: Global,
    names: &[Text],
    options: &CodegenOptions,
    dir: &mut D,
) -> Result<String, FileError>
    ensures ok { IfOk result (λ text.
        IsCompiled options.now names.now (D.files dir.old) (string_bytes text)) }
    ensures tried { IfOk result (λ text. AllTried names.now (D.counts dir.old) (D.counts dir.new)) }
    ensures err { IfErr result (λ e.
        HasCause e options.now (D.files dir.old) names.now (D.counts dir.old) (D.counts dir.new)) }
    ensures files { D.files dir.new ≡ D.files dir.old }
    ensures later { (D.counts dir.old).faults ≤ (D.counts dir.new).faults }
    ensures stays { (D.counts dir.old).faults ≡ 2 ^ 64 - 1
        → (D.counts dir.new).faults ≡ 2 ^ 64 - 1 }
    ensures given { (D.counts dir.new).given
        ≤ (D.counts dir.old).given + (2 ^ 24 + 1) * length names.now }
{
    match strings_of(alloc, names) {
        Ok(inputs) => from_files(alloc, dir, inputs.as_slice(), options),
        Err(_) => Err(FileError::Memory),
    }
}
