//! The run of a function whose arguments and answers fit.

ghost use Rattle.std.specs.Prelude.{◌≡◌, IfOk, IfErr, Some};
ghost use Rattle.isle_core.specs.ValueViews.{values, meaning, end, ran};
ghost use Rattle.isle_tree.specs.Run.{run};
ghost use Rattle.isle_tree.specs.Views.{function, program};
ghost use Rattle.isle_tree.specs.WellFormed.{IsWellFormed};
ghost use Rattle.isle_interpreter.specs.Ends.{EndFits};
ghost use Rattle.isle_interpreter.specs.Refusals.{MayRun};
ghost use Rattle.isle_interpreter.specs.declared.run_error.RunError.TheVariants.{Memory};

use crate::run_error::RunError;
use isle_core::{Answers, Outcome, Value};
use isle_running::run_function;
use isle_tree::{Function, Program};
use std::alloc::Global;

/// Runs the function. The only error is want of memory.
#[tactic(auto, using(crate::proofs::Founds::run_is, crate::proofs::Founds::not_none))]
pub fn run_fitting(
    alloc: Global,
    p: &Program,
    f: &Function,
    term: &str,
    args: &[Value],
    answers: &Answers,
) -> Result<Outcome, RunError>
    requires well_formed { IsWellFormed (program p.now) }
    requires may { MayRun (program p.now) term.now (values args.now) (meaning answers.now)
        (function f.now) }
    ensures ran { IfOk result (λ o.
        run (program p.now) term.now (values args.now) (meaning answers.now) answers.now.held
        ≡ Some (ran o)) }
    ensures ends { IfOk result (λ o. EndFits f.now.kind (end o.end)) }
    ensures refused { IfErr result (λ e. e ≡ Memory) }
{
    match run_function(alloc, p, f, args, answers)? {
        Some(outcome) => Ok(outcome),
        None => unreachable!(),
    }
}
