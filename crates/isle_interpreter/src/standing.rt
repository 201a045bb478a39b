//! Whether the constants in a function have values.

ghost use Rattle.std.specs.Prelude.{◌≡◌, IfOk};
ghost use Rattle.std.specs.List.{list_all};
ghost use Rattle.isle_tree.specs.Views.{function, program};
ghost use Rattle.isle_interpreter.specs.Served.{known_operand};
ghost use Rattle.isle_places.specs.Places.{Place, places};

use crate::constants::Constants;
use crate::served::Served;
use isle_places::{Signatures, push_places};
use isle_tree::{Function, Operand};
use std::alloc::{AllocError, Global};

// Whether what stands at a place has a value if it is a constant with a name.
fn is_known(served: &Served<'_>, constants: &Constants<'_>, operand: &Operand) -> bool
    ensures { result ≡ known_operand (program constants.now) served.now operand.now }
{
    match operand {
        Operand::Name(name) => served.gives(name.as_str()) | constants.occurs(name.as_str()),
        Operand::Local(_)
        | Operand::Arg(_)
        | Operand::Bool(_)
        | Operand::Int(..)
        | Operand::Raw(_) => true,
    }
}

/// Tells whether each name in a function that stands at a place whose type is fixed has a value, or is that of a type
/// that occurs. The only error is want of memory.
pub fn are_known<'s>(
    alloc: Global,
    served: &Served<'_>,
    constants: &Constants<'_>,
    signatures: &'s Signatures<'_>,
    f: &'s Function,
) -> Result<bool, AllocError>
    ensures { IfOk result (λ known.
        known ≡ list_all (λ (x : Place). known_operand (program constants.now) served.now x.0)
        (places (program signatures.now) (function f.now))) }
{
    let mut found = Vec::new(alloc);
    push_places(alloc, signatures, &mut found, f)?;
    for index in 0..found.len() {
        if !is_known(served, constants, found[index].0) {
            return Ok(false);
        }
    }
    Ok(true)
}
