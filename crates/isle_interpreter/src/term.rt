//! The run of the function of a term, if its arguments and the answers fit.

ghost use Rattle.std.specs.Prelude.{◌≡◌, ◌+◌, ◌^◌, ◌<◌, ◌⊎◌, length, IfOk, IfErr, OnOk, Some};
ghost use Rattle.isle_core.specs.Meaning.{Meaning};
ghost use Rattle.isle_core.specs.ValueViews.{values, meaning, end, ran};
ghost use Rattle.isle_tree.specs.Program.{Function};
ghost use Rattle.isle_tree.specs.Run.{function_of, run};
ghost use Rattle.isle_tree.specs.Views.{program};
ghost use Rattle.isle_tree.specs.WellFormed.{IsWellFormed};
ghost use Rattle.isle_interpreter.specs.Ends.{EndFits};
ghost use Rattle.isle_interpreter.specs.Judged.{IsEarly, Takes, Runs};
ghost use Rattle.isle_interpreter.specs.Refusals.{IsRefused};
ghost use Rattle.isle_interpreter.specs.declared.run_error.RunError.{RunError};
ghost use Rattle.isle_interpreter.specs.declared.run_error.RunError.TheVariants.{Memory};

use crate::entries::try_entries;
use crate::fitting::run_fitting;
use crate::run_error::RunError;
use crate::taking::taking;
use isle_core::{Answers, Outcome, Value};
use isle_tree::Program;
use std::alloc::Global;

/// Reports which of the first three refusals it is, if the function of a term doesn't take the arguments. Beside
/// these, want of memory.
pub fn takes(alloc: Global, p: &Program, term: &str, args: &[Value]) -> Result<(), RunError>
    ensures takes { OnOk result (Takes (program p.now) term.now (values args.now)) }
    ensures refused { IfErr result (λ e.
        (e ≡ Memory)
        ⊎ (IsEarly e
        × ((m : Meaning) → IsRefused (program p.now) term.now (values args.now) m e))) }
{
    match taking(alloc, p, term, args) {
        Ok(_) => Ok(()),
        Err(e) => Err(e),
    }
}

/// Returns the run of the function of the term of this name under the answers.
///
/// The errors in the order in which they are asked: the program has no function of the term; it takes another number of
/// arguments; the first argument that is no value of its parameter's type; the first entry of the answers that is
/// wrong, or the number of all entries if something that the function calls, or a constant in it at a place whose
/// type the program fixes, has none. Beside these, want of memory.
pub fn run_term(
    alloc: Global,
    p: &Program,
    name: &str,
    args: &[Value],
    answers: &Answers,
) -> Result<Outcome, RunError>
    requires well_formed { IsWellFormed (program p.now) }
    requires counted { length answers.now.consts + length answers.now.pure
        + length answers.now.turns < 2 ^ 64 }
    ensures ran { IfOk result (λ o.
        run (program p.now) name.now (values args.now) (meaning answers.now) answers.now.held
        ≡ Some (ran o)) }
    ensures may { OnOk result
        (Runs (program p.now) name.now (values args.now) (meaning answers.now)) }
    ensures ends { IfOk result (λ o.
        (f : Function) → function_of name.now (program p.now).fns ≡ Some f
        → EndFits f.kind (end o.end)) }
    ensures refused { IfErr result (λ e.
        (e ≡ Memory)
        ⊎ IsRefused (program p.now) name.now (values args.now) (meaning answers.now) e) }
    ensures never { OnOk result
        ((d : RunError)
        → IsRefused (program p.now) name.now (values args.now) (meaning answers.now) d → ⊥) }
    ensures only { IfErr result (λ e.
        (d : RunError)
        → IsRefused (program p.now) name.now (values args.now) (meaning answers.now) d
        → (e ≡ Memory) ⊎ (d ≡ e)) }
{
    let f = match taking(alloc, p, name, args) {
        Ok(f) => f,
        Err(e) => return Err(e),
    };
    match try_entries(alloc, p, f, answers) {
        Ok(()) => run_fitting(alloc, p, f, name, args, answers),
        Err(e) => Err(e),
    }
}
