//! The run of a term of a source.

ghost use Rattle.std.specs.Prelude.{◌≡◌, length, IfOk, IfErr};
ghost use Rattle.std.specs.String.{string_bytes};
ghost use Rattle.isle_values.specs.Views.{seen};
ghost use Rattle.isle_run.specs.Trial.{IsTrial};
ghost use Rattle.isle_run.specs.NoLines.{HasNoLines, IsWant};
ghost use Rattle.isle_run.specs.Valid.{CanRun};

use crate::checked::of_checked;
use crate::run_fail::RunFail;
use isle_codegen::{CompileError, check_files};
use isle_core::{CodegenOptions, Files};
use isle_values::Written;
use std::alloc::Global;

/// Why a term of a source is not run.
#[derive(Debug, Drop)]
pub enum TrialFail {
    /// The source gives no program.
    Source(CompileError),
    /// Its program doesn't run the term.
    Run(RunFail),
}

/// Returns the lines of a run of the term of this name, of the source that the files' texts are, at the values, under
/// the answers that a text spells: the line of the end, and one for each call of an impure term, in order. There are as
/// many names as texts. The failures come in this order: the source, the term, the number of arguments, their types,
/// the answers. Where the term can be run (`specs/Valid.antt`), the only one is want of memory.
pub fn trial(
    alloc: Global,
    files: &Files,
    options: &CodegenOptions,
    term: &str,
    given: &[Written],
    answers: &str,
) -> Result<String, TrialFail>
    requires count { length files.now.file_texts ≡ length files.now.file_names }
    ensures ok { IfOk result (λ lines.
        IsTrial options.now files.now term.now (seen given.now) answers.now (string_bytes lines)) }
    ensures err { IfErr result (λ e.
        HasNoLines options.now files.now term.now (seen given.now) answers.now e) }
    ensures complete { CanRun options.now files.now term.now (seen given.now) answers.now
        → IfErr result IsWant }
{
    let checked = match check_files(alloc, files) {
        Ok(checked) => checked,
        Err(fail) => return Err(TrialFail::Source(fail)),
    };
    match of_checked(alloc, files, options, &checked, term, given, answers) {
        Ok(lines) => Ok(lines),
        Err(fail) => Err(TrialFail::Run(fail)),
    }
}
