//! One answer, at the types of what its callee gives.

ghost use Rattle.std.specs.Prelude.{◌≡◌, IfOk, map};
ghost use Rattle.isle_core.specs.ValueViews.{answer, values};
ghost use Rattle.isle_answers.specs.Views.{result_seen, answer_seen};
ghost use Rattle.isle_core.specs.Rule.{Environment};
ghost use Rattle.isle_values.specs.Views.{written};
ghost use Rattle.isle_run_inputs.specs.AnswersAt.{one_type, tuple_at, result_at, answer_at, unfit};

use crate::makers::Makers;
use crate::value::{misfit, value_at_any};
use crate::values::each_at;
use isle_answers::{AnswerForm, ResultForm};
use isle_core::{Answer, List, TypeId, Value};
use isle_values::Written;
use std::alloc::{AllocError, Global};

// The type if there is only one.
fn one_type(tys: &[TypeId]) -> Option<TypeId>
    ensures { result ≡ one_type tys.now }
{
    match tys {
        [ty] => Some(*ty),
        [] | [_, _, ..] => None,
    }
}

// A tuple at the types of none or several results; if there is one, it is none of its type.
fn tuple_at(
    alloc: Global,
    makers: &Makers<'_>,
    tys: &[TypeId],
    parts: &[Written],
) -> Result<Vec<Value>, AllocError>
    ensures { IfOk result (λ vs.
        (env : Environment) → env.types ≡ makers.now
        → values vs.items ≡ tuple_at env tys.now (map written parts.now)) }
{
    match tys {
        [_] => {
            let value = misfit(alloc);
            Ok(vec![in alloc; value]?)
        }
        [] | [_, _, ..] => each_at(alloc, makers, tys, parts),
    }
}

// Results at the types of what their callee answers.
fn result_at(
    alloc: Global,
    makers: &Makers<'_>,
    tys: &[TypeId],
    form: &ResultForm,
) -> Result<Vec<Value>, AllocError>
    ensures { IfOk result (λ vs.
        (env : Environment) → env.types ≡ makers.now
        → values vs.items ≡ result_at env tys.now (result_seen form.now)) }
{
    match form {
        ResultForm::One(written) => {
            let value = value_at_any(alloc, makers, one_type(tys), written)?;
            Ok(vec![in alloc; value]?)
        }
        ResultForm::Tuple(parts) => tuple_at(alloc, makers, tys, parts.as_slice()),
    }
}

// The results of each item at those types, in order.
fn items_at(
    alloc: Global,
    makers: &Makers<'_>,
    tys: &[TypeId],
    forms: &[ResultForm],
) -> Result<Vec<List<Value>>, AllocError>
    ensures { IfOk result (λ found. (env : Environment) → env.types ≡ makers.now
        → map values found.items ≡ map (result_at env tys.now) (map result_seen forms.now)) }
{
    let mut found = Vec::new(alloc);
    for form in forms {
        let results = result_at(alloc, makers, tys, form)?;
        found.push(List::new(results))?;
    }
    Ok(found)
}

/// Returns an answer at these types: one value if there is one, else a tuple; a list has such results in each item.
pub fn answer_at(
    alloc: Global,
    makers: &Makers<'_>,
    tys: &[TypeId],
    form: &AnswerForm,
) -> Result<Answer, AllocError>
    ensures { IfOk result (λ a.
        (env : Environment) → env.types ≡ makers.now
        → answer a ≡ answer_at env tys.now (answer_seen form.now)) }
{
    match form {
        AnswerForm::Plain(found) => {
            let found = result_at(alloc, makers, tys, found)?;
            Ok(Answer::Plain(List::new(found)))
        }
        AnswerForm::Some(found) => {
            let found = result_at(alloc, makers, tys, found)?;
            Ok(Answer::Some(List::new(found)))
        }
        AnswerForm::Nothing => Ok(Answer::Nothing),
        AnswerForm::List(items) => {
            let items = items_at(alloc, makers, tys, items.as_slice())?;
            Ok(Answer::List(List::new(items)))
        }
    }
}

/// Returns an answer that fits no function.
pub fn unfit(alloc: Global) -> Result<Answer, AllocError>
    ensures { IfOk result (λ a. answer a ≡ unfit) }
{
    let value = misfit(alloc);
    let values = vec![in alloc; value]?;
    Ok(Answer::Plain(List::new(values)))
}
