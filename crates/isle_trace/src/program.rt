//! The trace of a run of a term of a program that conforms to its source.

ghost use Rattle.std.specs.Prelude.{◌≡◌, IfOk, IfErr, List, ℕ, true};
ghost use Rattle.std.specs.String.{string_bytes};
ghost use Rattle.isle_codegen.specs.Names.{are_file_names};
ghost use Rattle.isle_rulesets.specs.Grouping.{AreRuleSets};
ghost use Rattle.isle_run.specs.Compiled.{env_checked};
ghost use Rattle.isle_run.specs.NoLines.{IsNotRun};
ghost use Rattle.isle_trace.specs.Trace.{IsTracedTrial, OfNamed};
ghost use Rattle.isle_tree.specs.Views.{program};
ghost use Rattle.isle_tree.specs.WellFormed.{IsWellFormed};
ghost use Rattle.isle_values.specs.Views.{seen};

use crate::asked::Asked;
use crate::lines::trace_text;
use isle_codegen::Checked;
use isle_core::Text;
use isle_run::{Compiled, RunFail, args_given, outcome_under};
use isle_tree::Program;
use std::alloc::Global;

/// Runs the term, and returns the trace. The program's files have these names.
pub fn of_program(
    alloc: Global,
    names: &[Text],
    checked: &Checked,
    tree: &Program,
    asked: &Asked<'_>,
) -> Result<String, RunFail>
    requires names { are_file_names names.now ≡ true }
    requires terms { AreRuleSets (env_checked checked.now) checked.now.terms }
    requires well_formed { IsWellFormed (program tree.now) }
    ensures ok { IfOk result (λ text. OfNamed names.now (env_checked checked.now) (program tree.now)
        (λ options files. IsTracedTrial options files asked.now.term.now
        (seen asked.now.given.now) asked.now.answers.now (string_bytes text))) }
    ensures err { IfErr result (λ e. OfNamed names.now (env_checked checked.now) (program tree.now)
        (λ options files. IsNotRun options files asked.now.term.now
        (seen asked.now.given.now) asked.now.answers.now e)) }
{
    let args = match args_given(alloc, checked, asked.term, asked.given) {
        Ok(args) => args,
        Err(_) => return Err(RunFail::Memory),
    };
    let compiled = Compiled {
        typeenv: &checked.typeenv,
        termenv: &checked.termenv,
        program: tree,
    };
    let outcome = match outcome_under(
        alloc,
        &compiled,
        asked.term,
        args.as_slice(),
        asked.answers,
    ) {
        Ok(outcome) => outcome,
        Err(e) => return Err(e),
    };
    match trace_text(alloc, names, tree, &outcome) {
        Ok(text) => Ok(text),
        Err(_) => Err(RunFail::Memory),
    }
}
