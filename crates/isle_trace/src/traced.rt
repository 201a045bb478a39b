//! The trace of a run of a term of a source.

ghost use Rattle.std.specs.Prelude.{◌≡◌, length, IfOk, IfErr};
ghost use Rattle.std.specs.String.{string_bytes};
ghost use Rattle.isle_codegen.specs.Checked.{IsChecked};
ghost use Rattle.isle_rulesets.specs.Grouping.{AreRuleSets};
ghost use Rattle.isle_run.specs.Compiled.{env_checked};
ghost use Rattle.isle_run.specs.NoLines.{HasNoLines, IsNotRun, IsWant};
ghost use Rattle.isle_run.specs.Valid.{CanRun};
ghost use Rattle.isle_trace.specs.Trace.{IsTracedTrial};
ghost use Rattle.isle_values.specs.Views.{seen};

use crate::asked::Asked;
use crate::program::of_program;
use isle_codegen::{Checked, check_files, codegen_tree};
use isle_core::{CodegenOptions, Files};
use isle_run::{RunFail, TrialFail};
use std::alloc::Global;

// Runs the term of a source that was checked, and returns the trace.
fn of_checked(
    alloc: Global,
    files: &Files,
    options: &CodegenOptions,
    checked: &Checked,
    asked: &Asked<'_>,
) -> Result<String, RunFail>
    requires checked { IsChecked files.now (env_checked checked.now) }
    requires terms { AreRuleSets (env_checked checked.now) checked.now.terms }
    ensures ok { IfOk result (λ text. IsTracedTrial options.now files.now asked.now.term.now
        (seen asked.now.given.now) asked.now.answers.now (string_bytes text)) }
    ensures err { IfErr result (λ e. IsNotRun options.now files.now asked.now.term.now
        (seen asked.now.given.now) asked.now.answers.now e) }
{
    let (typeenv, termenv) = (&checked.typeenv, &checked.termenv);
    let terms = checked.terms.as_slice();
    let program = match codegen_tree(alloc, files, typeenv, termenv, terms, options) {
        Ok(program) => program,
        Err(_) => return Err(RunFail::Memory),
    };
    of_program(alloc, files.file_names.as_slice(), checked, &program, asked)
}

/// Returns the trace of a run of the term of this name, of the source that the files' texts are, at the values, under
/// the answers that a text spells: the text of its program, a line feed, the line of the end, and one for each call, in
/// order, those of extractors and pure terms too (`specs/Trace.antt`). There are as many names as texts. It fails as
/// `trial` of `isle_run` does.
pub fn traced_trial(
    alloc: Global,
    files: &Files,
    options: &CodegenOptions,
    asked: &Asked<'_>,
) -> Result<String, TrialFail>
    requires count { length files.now.file_texts ≡ length files.now.file_names }
    ensures ok { IfOk result (λ text. IsTracedTrial options.now files.now asked.now.term.now
        (seen asked.now.given.now) asked.now.answers.now (string_bytes text)) }
    ensures err { IfErr result (λ e. HasNoLines options.now files.now asked.now.term.now
        (seen asked.now.given.now) asked.now.answers.now e) }
    ensures complete { CanRun options.now files.now asked.now.term.now
        (seen asked.now.given.now) asked.now.answers.now → IfErr result IsWant }
{
    let checked = match check_files(alloc, files) {
        Ok(checked) => checked,
        Err(fail) => return Err(TrialFail::Source(fail)),
    };
    match of_checked(alloc, files, options, &checked, asked) {
        Ok(text) => Ok(text),
        Err(fail) => Err(TrialFail::Run(fail)),
    }
}
