//! The run of a function.

ghost use Rattle.std.specs.Prelude.{◌≡◌, IfOk, Some, option_map};
ghost use Rattle.isle_core.specs.Value.{GivesList};
ghost use Rattle.isle_core.specs.ValueViews.{values, meaning, ran};
ghost use Rattle.isle_tree.specs.Run.{ended, runs_out, function_run};
ghost use Rattle.isle_tree.specs.Views.{function, program};
ghost use Rattle.isle_running.specs.RunViews.{flow, state};

use crate::around::Around;
use crate::called::Calls;
use crate::flow::Flow;
use crate::frame::Frame;
use crate::run::run_body;
use isle_core::{Answers, End, List, Outcome, ReturnKind, Value};
use isle_scope::Table;
use isle_tree::{Function, Program};
use std::alloc::{AllocError, Global};

// The outcome that has the results given.
fn listed(frame: Frame<'_>) -> Outcome
    ensures { ran result
        ≡ record { end = GivesList (state frame.entry).given; calls = (state frame.entry).made } }
{
    let Frame { calls, given, .. } = frame;
    Outcome {
        end: End::List(List::new(given)),
        calls: List::new(calls.into_vec()),
    }
}

// What is left of a function of the kind after its last statement.
fn runs_out(of: ReturnKind, frame: Frame<'_>) -> Option<Outcome>
    ensures { option_map ran result ≡ runs_out of (state frame.entry) }
{
    match of {
        ReturnKind::Plain | ReturnKind::Option => None,
        ReturnKind::Iterator => Some(listed(frame)),
    }
}

// What a body's end leaves of a run of a function of the kind, where it ends.
fn outcome(of: ReturnKind, end: Flow, frame: Frame<'_>) -> Option<Outcome>
    ensures { option_map ran result ≡ ended of (flow end frame.entry) }
{
    match end {
        Flow::Ends(end) => {
            let calls = List::new(frame.calls.into_vec());
            Some(Outcome {
                end: end.into_inner(),
                calls,
            })
        }
        Flow::Full => Some(listed(frame)),
        Flow::Goes => runs_out(of, frame),
        Flow::Leaves | Flow::Stuck => None,
    }
}

/// Runs a function, where it has a run. The only error is want of memory.
pub fn run_function(
    alloc: Global,
    p: &Program,
    f: &Function,
    args: &[Value],
    answers: &Answers,
) -> Result<Option<Outcome>, AllocError>
    ensures { IfOk result (λ o. option_map ran o ≡
        function_run (program p.now) (meaning answers.now) answers.now.held (values args.now)
        (Some (function f.now))) }
{
    let around = Around {
        program: p,
        function: f,
        args,
        held: answers.held,
    };
    let calls = Calls::new(alloc, answers)?;
    let locals = Table::new(alloc);
    let given = Vec::new(alloc);
    let mut frame = Frame {
        locals,
        calls,
        given,
    };
    let end = run_body(alloc, &around, f.body.as_slice(), &mut frame)?;
    Ok(outcome(f.kind, end, frame))
}
