//! Values of some type.

ghost use Rattle.std.specs.Prelude.{◌≡◌};
ghost use Rattle.isle_core.specs.ValueViews.{value};
ghost use Rattle.isle_interpreter.specs.Entries.{is_typed};

use isle_core::Value;
use isle_spelling::is_same;

/// Tells whether a value is of some type: an opaque number under no name is of none.
#[tactic(auto, using(isle_outcomes::proofs::SeesValues::sees_values))]
pub fn is_typed(given: &Value) -> bool
    ensures { result ≡ is_typed (value given.now) }
{
    match given {
        Value::Opaque(ty, _) => !is_same("", ty.as_str()),
        Value::Bool(_) | Value::Int(..) | Value::Variant(..) | Value::Struct(..) => true,
    }
}
