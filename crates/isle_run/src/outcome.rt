//! The outcome of a run under the answers that a text spells.

ghost use Rattle.std.specs.Prelude.{◌≡◌, ◌⊎◌, ℕ, List, IfOk, IfErr, length};
ghost use Rattle.isle_core.specs.ValueViews.{values, ran};
ghost use Rattle.isle_answers.specs.Views.{forms_seen};
ghost use Rattle.isle_answers.specs.Spelling.{SpellsForms};
ghost use Rattle.isle_tree.specs.WellFormed.{IsWellFormed};
ghost use Rattle.isle_interpreter.specs.Judged.{Takes};
ghost use Rattle.isle_run.specs.Compiled.{program_of, attempt};
ghost use Rattle.isle_run.specs.Ran.{IsUnder, IsOutcome};
ghost use Rattle.isle_run.specs.NoLines.{IsRunRefused};
ghost use Rattle.isle_run.specs.Placed.{placed};
ghost use Rattle.isle_run.specs.declared.run_fail.RunFail.TheVariants.{Memory};

use crate::left_out::leaves_out;
use crate::run_fail::RunFail;
use isle_answers::{AnswersFail, Form, forms};
use isle_core::{Outcome, TermEnv, TypeEnv, Value};
use isle_interpreter::{RunError, run_term, takes};
use isle_run_inputs::{answers_at, place_at};
use isle_tree::Program;
use std::alloc::Global;

/// An environment, and a program that conforms to its source.
#[derive(Drop)]
pub struct Compiled<'a> {
    pub typeenv: &'a TypeEnv,
    pub termenv: &'a TermEnv,
    pub program: &'a Program,
}

// Why a run is refused, the number of an entry being the place of its form.
fn placed(e: RunError, end: usize, forms: &[Form]) -> RunFail
    ensures { result ≡ placed e end (forms_seen forms.now) }
{
    match e {
        RunError::NoTerm => RunFail::NoTerm,
        RunError::ArgCount => RunFail::ArgCount,
        RunError::ArgType(index) => RunFail::ArgType(index),
        RunError::BadAnswers(number) => { RunFail::BadAnswers(place_at(end, forms, number)) }
        RunError::Memory => RunFail::Memory,
    }
}

// The refusal for the term or the arguments, or else another one; beside these, want of memory.
fn refused(
    alloc: Global,
    compiled: &Compiled<'_>,
    term: &str,
    args: &[Value],
    other: RunFail,
) -> RunFail
    ensures { (text : List ℕ)
        → (Takes (program_of compiled.now) term.now (values args.now)
        → IsRunRefused (attempt compiled.now term.now args.now) text other)
        → (result ≡ Memory) ⊎ IsRunRefused (attempt compiled.now term.now args.now) text result }
{
    match takes(alloc, compiled.program, term, args) {
        Ok(()) => other,
        Err(e) => placed(e, 0, &[]),
    }
}

// The outcome under forms that stand in a text of that length.
fn under_forms(
    alloc: Global,
    compiled: &Compiled<'_>,
    term: &str,
    args: &[Value],
    forms: &[Form],
    end: usize,
) -> Result<Outcome, RunFail>
    requires well_formed { IsWellFormed (program_of compiled.now) }
    ensures ok { IfOk result (λ o.
        IsUnder (attempt compiled.now term.now args.now) (forms_seen forms.now) (ran o)) }
    ensures err { IfErr result (λ e.
        (text : List ℕ) → SpellsForms text (forms_seen forms.now) → end ≡ length text
        → (e ≡ Memory) ⊎ IsRunRefused (attempt compiled.now term.now args.now) text e) }
{
    let answers = answers_at(alloc, compiled.typeenv, compiled.termenv, forms)?;
    let outcome = match run_term(alloc, compiled.program, term, args, &answers) {
        Ok(outcome) => outcome,
        Err(e) => return Err(placed(e, end, forms)),
    };
    if leaves_out(alloc, compiled, term, &answers)? {
        return Err(RunFail::BadAnswers(end));
    }
    Ok(outcome)
}

/// Runs the function of a term under the answers that a text spells. It is refused as `IsRunRefused` in
/// `specs/NoLines.antt` says, or memory ran out.
pub fn outcome_under(
    alloc: Global,
    compiled: &Compiled<'_>,
    term: &str,
    args: &[Value],
    text: &str,
) -> Result<Outcome, RunFail>
    requires well_formed { IsWellFormed (program_of compiled.now) }
    ensures ok { IfOk result (λ o.
        IsOutcome (attempt compiled.now term.now args.now) text.now (ran o)) }
    ensures err { IfErr result (λ e.
        (e ≡ Memory) ⊎ IsRunRefused (attempt compiled.now term.now args.now) text.now e) }
{
    match forms(alloc, text) {
        Ok(forms) => under_forms(alloc, compiled, term, args, forms.as_slice(), text.len()),
        Err(AnswersFail::At(at)) => {
            let other = RunFail::BadAnswers(at);
            Err(refused(alloc, compiled, term, args, other))
        }
        Err(AnswersFail::Memory) => Err(RunFail::Memory),
    }
}
