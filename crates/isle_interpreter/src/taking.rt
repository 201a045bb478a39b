//! The function of a term that takes the arguments.

ghost use Rattle.std.specs.Prelude.{◌≡◌, ◌⊎◌, IfOk, IfErr, Some, map};
ghost use Rattle.isle_core.specs.Meaning.{Meaning};
ghost use Rattle.isle_core.specs.ValueViews.{values};
ghost use Rattle.isle_tree.specs.Run.{function_of};
ghost use Rattle.isle_tree.specs.Views.{function, program};
ghost use Rattle.isle_interpreter.specs.Judged.{IsEarly};
ghost use Rattle.isle_interpreter.specs.Refusals.{IsRefused};
ghost use Rattle.isle_places.specs.Signatures.{type_names};
ghost use Rattle.isle_interpreter.specs.Named.{AreNamed};
ghost use Rattle.isle_interpreter.specs.declared.run_error.RunError.TheVariants.{Memory};

use crate::functions::function_of;
use crate::run_error::RunError;
use crate::values::first_wrong;
use isle_core::Value;
use isle_places::Types;
use isle_tree::{Function, Program};
use std::alloc::Global;

/// Returns the function of a term, if it takes these arguments: else one of the first three refusals, or want of
/// memory.
pub fn taking<'p>(
    alloc: Global,
    p: &'p Program,
    term: &str,
    args: &[Value],
) -> Result<&'p Function, RunError>
    ensures there { IfOk result (λ f.
        function_of term.now (map function p.now.fns) ≡ Some (function f.now)) }
    ensures typed { IfOk result (λ f.
        AreNamed p.now.types (type_names f.now.params) (values args.now)) }
    ensures refused { IfErr result (λ e.
        (e ≡ Memory)
        ⊎ (IsEarly e
        × ((m : Meaning) → IsRefused (program p.now) term.now (values args.now) m e))) }
{
    let f = match function_of(p.fns.as_slice(), term) {
        Some(f) => f,
        None => return Err(RunError::NoTerm),
    };
    if args.len() != f.params.as_slice().len() {
        return Err(RunError::ArgCount);
    }
    let types = Types::new(alloc, p.types.as_slice())?;
    match first_wrong(alloc, &types, f.params.as_slice(), args)? {
        Some(index) => Err(RunError::ArgType(index)),
        None => Ok(f),
    }
}
