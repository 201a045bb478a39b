//! The run of a term of a source that was checked.

ghost use Rattle.std.specs.Prelude.{IfOk, IfErr};
ghost use Rattle.std.specs.String.{string_bytes};
ghost use Rattle.isle_rulesets.specs.Grouping.{AreRuleSets};
ghost use Rattle.isle_values.specs.Views.{seen};
ghost use Rattle.isle_codegen.specs.Checked.{IsChecked};
ghost use Rattle.isle_run.specs.Compiled.{env_checked};
ghost use Rattle.isle_run.specs.Trial.{IsTrial};
ghost use Rattle.isle_run.specs.NoLines.{IsNotRun};

use crate::program::of_program;
use crate::run_fail::RunFail;
use isle_codegen::{Checked, codegen_tree};
use isle_core::{CodegenOptions, Files};
use isle_values::Written;
use std::alloc::Global;

/// Runs the term, and returns its lines.
pub fn of_checked(
    alloc: Global,
    files: &Files,
    options: &CodegenOptions,
    checked: &Checked,
    term: &str,
    given: &[Written],
    answers: &str,
) -> Result<String, RunFail>
    requires checked { IsChecked files.now (env_checked checked.now) }
    requires terms { AreRuleSets (env_checked checked.now) checked.now.terms }
    ensures ok { IfOk result (λ lines.
        IsTrial options.now files.now term.now (seen given.now) answers.now (string_bytes lines)) }
    ensures err { IfErr result (λ e.
        IsNotRun options.now files.now term.now (seen given.now) answers.now e) }
{
    let terms = checked.terms.as_slice();
    let program = match codegen_tree(
        alloc,
        files,
        &checked.typeenv,
        &checked.termenv,
        terms,
        options,
    ) {
        Ok(program) => program,
        Err(_) => return Err(RunFail::Memory),
    };
    of_program(alloc, checked, &program, term, given, answers)
}
