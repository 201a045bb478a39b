//! The lines of an outcome.

ghost use Rattle.std.specs.Prelude.{◌≡◌, ◌++◌, [], IfOk, OnOk, is_some, if◌then◌else◌, map};
ghost use Rattle.std.specs.String.{string_bytes};
ghost use Rattle.isle_core.specs.Terms.{impure_calls};
ghost use Rattle.isle_core.specs.RuleViews.{environment};
ghost use Rattle.isle_core.specs.ValueViews.{made, ran};
ghost use Rattle.isle_run_inputs.specs.AnswerTypes.{OfTypes};
ghost use Rattle.isle_run_inputs.specs.Requested.{answer_type};
ghost use Rattle.isle_outcomes.specs.Lines.{call_line, call_lines, run_lines};
ghost use Rattle.isle_run.specs.Trial.{shown_run};

use isle_core::{CallMade, OutOfMemory, Outcome, TermEnv, TypeEnv};
use isle_outcomes::{end_line, push_call};
use isle_run_inputs::AnswerTypes;
use std::alloc::Global;

// Appends the line of a call, where it goes to an impure term.
fn push_impure(
    out: &mut String,
    types: &AnswerTypes<'_>,
    call: &CallMade,
) -> Result<(), OutOfMemory>
    ensures { OnOk result (OfTypes types.now (λ env. string_bytes out.new
        ≡ string_bytes out.old
        ++ (if is_some (answer_type env call.now.callee) then call_line (made call.now) else []))) }
{
    match types.of(&call.callee) {
        Some(_) => push_call(out, call),
        None => Ok(()),
    }
}

// Appends a line for each call of an impure term.
fn push_calls(
    out: &mut String,
    types: &AnswerTypes<'_>,
    calls: &[CallMade],
) -> Result<(), OutOfMemory>
    ensures { OnOk result (OfTypes types.now (λ env. string_bytes out.new
        ≡ string_bytes out.old ++ call_lines (impure_calls env (map made calls.now)))) }
{
    for call in calls {
        push_impure(out, types, call)?;
    }
    Ok(())
}

/// Returns the line of the end, and a line for each call of an impure term, in order.
pub fn lines_of(
    alloc: Global,
    typeenv: &TypeEnv,
    termenv: &TermEnv,
    outcome: &Outcome,
) -> Result<String, OutOfMemory>
    ensures { IfOk result (λ text.
        string_bytes text
        ≡ run_lines (shown_run (environment typeenv.now termenv.now) (ran outcome.now))) }
{
    let types = AnswerTypes::new(alloc, typeenv, termenv.terms.as_slice())?;
    let mut text = end_line(alloc, &outcome.end)?;
    push_calls(&mut text, &types, outcome.calls.as_slice())?;
    Ok(text)
}
