//! The turns that forms give.

ghost use Rattle.std.specs.Prelude;
ghost use Rattle.std.specs.Prelude.{◌≡◌, IfOk, ◌∷◌, map, option_map};
ghost use Rattle.std.specs.List.{cons_option};
ghost use Rattle.isle_core.specs.ValueViews.{answer, turn_answers};
ghost use Rattle.isle_answers.specs.Form as pure_form;
ghost use Rattle.isle_answers.specs.Views.{answer_seen, form_seen, forms_seen};
ghost use Rattle.isle_core.specs.RuleViews.{environment};
ghost use Rattle.isle_core.specs.Rule.{Environment};
ghost use Rattle.isle_run_inputs.specs.AnswerTypes.{OfTypes};
ghost use Rattle.isle_run_inputs.specs.AnswersAt.{answer_at, turns_by, turns_at};

use crate::answer::{answer_at, unfit};
use crate::answer_types::AnswerTypes;
use crate::makers::Makers;
use isle_answers::{AnswerForm, Form};
use isle_core::{Answer, Callee, List, OutOfMemory, TermEnv, TurnAnswers, TypeId};
use std::alloc::{AllocError, Global};
use std::slice;

// Answers at these types, in order.
fn all_at(
    alloc: Global,
    makers: &Makers<'_>,
    tys: &[TypeId],
    forms: &[AnswerForm],
) -> Result<Vec<Answer>, AllocError>
    ensures { IfOk result (λ found. (env : Environment) → env.types ≡ makers.now
        → map answer found.items ≡ map (λ a. answer_at env tys.now (answer_seen a)) forms.now) }
{
    let mut found = Vec::new(alloc);
    for form in forms {
        found.push(answer_at(alloc, makers, tys, form)?)?;
    }
    Ok(found)
}

// Turns of a callee whose calls are answered at that type; if there is none, they fit no function.
fn turns_by(
    alloc: Global,
    makers: &Makers<'_>,
    ty: Option<TypeId>,
    callee: &Callee,
    turns: &[AnswerForm],
    rest: &AnswerForm,
) -> Result<TurnAnswers, AllocError>
    ensures { IfOk result (λ t. (env : Environment) → env.types ≡ makers.now
        → turn_answers t
        ≡ turns_by env ty callee.now (map answer_seen turns.now) (answer_seen rest.now)) }
{
    let callee = callee.copied(alloc)?;
    let Some(ty) = ty else {
        return Ok(TurnAnswers {
            callee,
            turns: List::new(Vec::new(alloc)),
            rest: unfit(alloc)?,
        });
    };
    let tys = slice::from_ref(&ty);
    let turns = all_at(alloc, makers, tys, turns)?;
    let rest = answer_at(alloc, makers, tys, rest)?;
    Ok(TurnAnswers {
        callee,
        turns: List::new(turns),
        rest,
    })
}

// The turns that a form gives; the other forms give none.
fn turns_of(
    alloc: Global,
    makers: &Makers<'_>,
    types: &AnswerTypes<'_>,
    form: &Form,
) -> Result<Option<TurnAnswers>, AllocError>
    ensures { IfOk result (λ t.
        OfTypes types.now (λ env. env.types ≡ makers.now → (rest : Prelude.List pure_form.Form)
        → turns_at env (form_seen form.now ∷ rest)
        ≡ cons_option (option_map turn_answers t) (turns_at env rest))) }
{
    match form {
        Form::Turns {
            callee,
            turns,
            rest,
            ..
        } => {
            let ty = types.of(callee);
            let turns = turns_by(alloc, makers, ty, callee, turns.as_slice(), rest)?;
            Ok(Some(turns))
        }
        Form::Held { .. } | Form::Const { .. } | Form::Answers { .. } => Ok(None),
    }
}

/// Returns the turns that forms give, in order, their values at the types of what the callees answer; those of a callee
/// to which no call of an impure term goes fit no function.
pub fn turns_at(
    alloc: Global,
    makers: &Makers<'_>,
    termenv: &TermEnv,
    forms: &[Form],
) -> Result<Vec<TurnAnswers>, OutOfMemory>
    ensures { IfOk result (λ found.
        map turn_answers found.items
        ≡ turns_at (environment makers.now termenv.now) (forms_seen forms.now)) }
{
    let types = AnswerTypes::new(alloc, makers.typeenv(), termenv.terms.as_slice())?;
    let mut all = Vec::new(alloc);
    for form in forms {
        if let Some(turns) = turns_of(alloc, makers, &types, form)? {
            all.push(turns)?;
        }
    }
    Ok(all)
}
