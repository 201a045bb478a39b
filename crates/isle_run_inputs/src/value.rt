//! One written value at a type.

ghost use Rattle.std.specs.Prelude.{◌≡◌, IfOk, Option, option_map};
ghost use Rattle.isle_core.specs.Rule.{Environment};
ghost use Rattle.isle_core.specs.ValueViews.{value};
ghost use Rattle.isle_values.specs.Views.{written};
ghost use Rattle.isle_run_inputs.specs.ValuesAt.{misfit, or_misfit, value_at, value_at_any};

use crate::made_value::typed_in;
use crate::makers::Makers;
use isle_core::{Text, TypeId, Value};
use isle_values::Written;
use std::alloc::{AllocError, Global};

/// Returns what is given for a written value that is none of its type: a value of no type.
#[tactic(auto, using(isle_outcomes::proofs::SeesValues::sees_values))]
pub fn misfit(alloc: Global) -> Value
    ensures { value result ≡ misfit }
{
    Value::Opaque(Text::new(String::new(alloc)), 0)
}

// A value, or what is given if there is none.
fn or_misfit(alloc: Global, found: Option<Value>) -> Value
    ensures { value result ≡ or_misfit (option_map value found) }
{
    match found {
        Some(value) => value,
        None => misfit(alloc),
    }
}

/// Returns a written value at a type of an environment; one of another type is a value of no type.
pub fn value_at(
    alloc: Global,
    makers: &Makers<'_>,
    ty: TypeId,
    given: &Written,
) -> Result<Value, AllocError>
    ensures { IfOk result (λ v.
        (env : Environment) → env.types ≡ makers.now
        → value v ≡ value_at env ty (written given.now)) }
{
    let found = typed_in(alloc, makers, ty, given)?;
    Ok(or_misfit(alloc, found))
}

/// Returns a written value at a type that may be missing; then none fits.
pub fn value_at_any(
    alloc: Global,
    makers: &Makers<'_>,
    ty: Option<TypeId>,
    given: &Written,
) -> Result<Value, AllocError>
    ensures { IfOk result (λ v.
        (env : Environment) → env.types ≡ makers.now
        → value v ≡ value_at_any env ty (written given.now)) }
{
    match ty {
        Some(ty) => value_at(alloc, makers, ty, given),
        None => Ok(misfit(alloc)),
    }
}
