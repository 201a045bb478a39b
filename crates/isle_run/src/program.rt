//! The run of a term of a program that conforms to its source.

ghost use Rattle.std.specs.Prelude.{◌≡◌, IfOk, IfErr};
ghost use Rattle.std.specs.String.{string_bytes};
ghost use Rattle.isle_core.specs.ValueViews.{values};
ghost use Rattle.isle_rulesets.specs.Grouping.{AreRuleSets};
ghost use Rattle.isle_values.specs.Views.{seen};
ghost use Rattle.isle_tree.specs.Views.{program};
ghost use Rattle.isle_tree.specs.WellFormed.{IsWellFormed};
ghost use Rattle.isle_run.specs.Compiled.{env_checked, OfSource};
ghost use Rattle.isle_run.specs.Trial.{IsTrial, args_given};
ghost use Rattle.isle_run.specs.NoLines.{IsNotRun};

use crate::outcome::{Compiled, outcome_under};
use crate::run_fail::RunFail;
use crate::shown::lines_of;
use isle_codegen::Checked;
use isle_core::{OutOfMemory, Value};
use isle_run_inputs::{requested_term, values_at};
use isle_tree::Program;
use isle_values::Written;
use std::alloc::Global;

/// Returns the arguments: the values at the types of the term that has rules and this name; without such a term there
/// are no types. The only error is want of memory.
pub fn args_given(
    alloc: Global,
    checked: &Checked,
    term: &str,
    given: &[Written],
) -> Result<Vec<Value>, OutOfMemory>
    requires { AreRuleSets (env_checked checked.now) checked.now.terms }
    ensures { IfOk result (λ args.
        values args.items ≡ args_given (env_checked checked.now) term.now (seen given.now)) }
{
    let typeenv = &checked.typeenv;
    let tys = match requested_term(typeenv, &checked.termenv, checked.terms.as_slice(), term) {
        Some(id) => match checked.termenv.terms.as_slice().get(id.index()) {
            Some(term) => term.arg_tys.as_slice(),
            None => &[],
        },
        None => &[],
    };
    values_at(alloc, typeenv, tys, given)
}

/// Runs the term, and returns its lines.
pub fn of_program(
    alloc: Global,
    checked: &Checked,
    tree: &Program,
    term: &str,
    given: &[Written],
    answers: &str,
) -> Result<String, RunFail>
    requires terms { AreRuleSets (env_checked checked.now) checked.now.terms }
    requires well_formed { IsWellFormed (program tree.now) }
    ensures ok { IfOk result (λ lines. OfSource (env_checked checked.now) (program tree.now)
        (λ options files.
        IsTrial options files term.now (seen given.now) answers.now (string_bytes lines))) }
    ensures err { IfErr result (λ e. OfSource (env_checked checked.now) (program tree.now)
        (λ options files. IsNotRun options files term.now (seen given.now) answers.now e)) }
{
    let args = match args_given(alloc, checked, term, given) {
        Ok(args) => args,
        Err(_) => return Err(RunFail::Memory),
    };
    let compiled = Compiled {
        typeenv: &checked.typeenv,
        termenv: &checked.termenv,
        program: tree,
    };
    let outcome = match outcome_under(alloc, &compiled, term, args.as_slice(), answers) {
        Ok(outcome) => outcome,
        Err(e) => return Err(e),
    };
    match lines_of(alloc, &checked.typeenv, &checked.termenv, &outcome) {
        Ok(lines) => Ok(lines),
        Err(_) => Err(RunFail::Memory),
    }
}
