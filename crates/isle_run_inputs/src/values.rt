//! Written values, each at its type.

ghost use Rattle.std.specs.Prelude.{◌≡◌, IfOk};
ghost use Rattle.isle_core.specs.Rule.{Environment};
ghost use Rattle.isle_core.specs.ValueViews.{values};
ghost use Rattle.isle_values.specs.Views.{seen};
ghost use Rattle.isle_run_inputs.specs.ValuesAt.{values_at};

use crate::makers::Makers;
use crate::value::value_at_any;
use isle_core::{OutOfMemory, TypeEnv, TypeId, Value};
use isle_values::Written;
use std::alloc::{AllocError, Global};

/// Returns written values in order, each at its type.
pub fn each_at(
    alloc: Global,
    makers: &Makers<'_>,
    tys: &[TypeId],
    given: &[Written],
) -> Result<Vec<Value>, AllocError>
    ensures { IfOk result (λ vs.
        (env : Environment) → env.types ≡ makers.now
        → values vs.items ≡ values_at env tys.now (seen given.now)) }
{
    let mut found = Vec::new(alloc);
    for (index, written) in given.iter().enumerate() {
        let ty = tys.get(index).copied();
        found.push(value_at_any(alloc, makers, ty, written)?)?;
    }
    Ok(found)
}

/// Returns written values in order, each at its type; one of another type, or for which there is no type, is a value of
/// no type.
pub fn values_at(
    alloc: Global,
    typeenv: &TypeEnv,
    tys: &[TypeId],
    given: &[Written],
) -> Result<Vec<Value>, OutOfMemory>
    ensures { IfOk result (λ vs.
        (env : Environment) → env.types ≡ typeenv.now
        → values vs.items ≡ values_at env tys.now (seen given.now)) }
{
    let makers = Makers::new(alloc, typeenv)?;
    let found = each_at(alloc, &makers, tys, given)?;
    Ok(found)
}
