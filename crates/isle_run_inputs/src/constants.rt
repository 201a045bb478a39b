//! The values that forms give constants.

ghost use Rattle.std.specs.Prelude;
ghost use Rattle.std.specs.Prelude.{◌≡◌, IfOk, ◌∷◌, map, option_map};
ghost use Rattle.std.specs.List.{cons_option};
ghost use Rattle.isle_core.specs.ValueViews as view;
ghost use Rattle.isle_core.specs.Rule.{Environment};
ghost use Rattle.isle_answers.specs.Form as pure_form;
ghost use Rattle.isle_answers.specs.Views.{form_seen, forms_seen};
ghost use Rattle.isle_run_inputs.specs.AnswersAt.{constants_at};

use crate::constant_types::ConstantTypes;
use crate::makers::Makers;
use crate::value::value_at_any;
use isle_answers::Form;
use isle_core::{OutOfMemory, Text, Value};
use std::alloc::{AllocError, Global};

// The constant that a form gives a value, with the value at the constant's type; only forms of constants give one.
fn constant_of(
    alloc: Global,
    makers: &Makers<'_>,
    types: &ConstantTypes,
    form: &Form,
) -> Result<Option<(Text, Value)>, AllocError>
    ensures { IfOk result (λ c.
        (env : Environment) → env.types ≡ types.now → env.types ≡ makers.now
        → (rest : Prelude.List pure_form.Form)
        → constants_at env (form_seen form.now ∷ rest)
        ≡ cons_option (option_map view.const c) (constants_at env rest)) }
{
    match form {
        Form::Const { name, value, .. } => {
            let ty = types.of(name.as_str());
            let value = value_at_any(alloc, makers, ty, value)?;
            Ok(Some((Text::copied(alloc, name.as_str())?, value)))
        }
        Form::Held { .. } | Form::Answers { .. } | Form::Turns { .. } => Ok(None),
    }
}

/// Returns the values that forms give constants, each at the type of its constant; one of another type, or for a name
/// that no constant has, is a value of no type.
pub fn constants_at(
    alloc: Global,
    makers: &Makers<'_>,
    forms: &[Form],
) -> Result<Vec<(Text, Value)>, OutOfMemory>
    ensures { IfOk result (λ found.
        (env : Environment) → env.types ≡ makers.now
        → map view.const found.items ≡ constants_at env (forms_seen forms.now)) }
{
    let types = ConstantTypes::new(alloc, makers.typeenv())?;
    let mut found = Vec::new(alloc);
    for form in forms {
        if let Some(constant) = constant_of(alloc, makers, &types, form)? {
            found.push(constant)?;
        }
    }
    Ok(found)
}
