//! The cases that forms give.

ghost use Rattle.std.specs.Prelude;
ghost use Rattle.std.specs.Prelude.{◌≡◌, IfOk, ◌∷◌, map, option_map};
ghost use Rattle.std.specs.List.{cons_option};
ghost use Rattle.isle_core.specs.ValueViews.{case, pure_answers};
ghost use Rattle.isle_answers.specs.Form as pure_form;
ghost use Rattle.isle_answers.specs.Views.{answer_seen, case_seen, form_seen, forms_seen};
ghost use Rattle.isle_core.specs.RuleViews.{environment};
ghost use Rattle.isle_core.specs.Rule.{Environment};
ghost use Rattle.isle_run_inputs.specs.AnswerTypes.{OfTypes};
ghost use Rattle.isle_run_inputs.specs.AskedFunctions.{asked_seen};
ghost use Rattle.isle_run_inputs.specs.AnswersAt.{case_at, cases_by, cases_at};

use crate::answer::{answer_at, unfit};
use crate::asked::{Asked, AskedFunctions};
use crate::makers::Makers;
use crate::values::each_at;
use isle_answers::{AnswerForm, Form};
use isle_core::{Answer, Callee, List, OutOfMemory, PureAnswers, TermEnv, Value};
use isle_values::Written;
use std::alloc::{AllocError, Global};

// A case of a function of these types.
fn case_at(
    alloc: Global,
    makers: &Makers<'_>,
    asked: Asked<'_>,
    form: &(List<Written>, AnswerForm),
) -> Result<(List<Value>, Answer), AllocError>
    ensures { IfOk result (λ c.
        (env : Environment) → env.types ≡ makers.now
        → case c ≡ case_at env (asked_seen asked.entry) (case_seen form.now)) }
{
    let args = each_at(alloc, makers, asked.params, form.0.as_slice())?;
    let answer = answer_at(alloc, makers, asked.results, &form.1)?;
    Ok((List::new(args), answer))
}

// Cases of it, in order.
fn all_cases(
    alloc: Global,
    makers: &Makers<'_>,
    asked: Asked<'_>,
    forms: &[(List<Written>, AnswerForm)],
) -> Result<Vec<(List<Value>, Answer)>, AllocError>
    ensures { IfOk result (λ found. (env : Environment) → env.types ≡ makers.now
        → map case found.items
        ≡ map (λ c. case_at env (asked_seen asked.entry) (case_seen c)) forms.now) }
{
    let mut found = Vec::new(alloc);
    for form in forms {
        found.push(case_at(alloc, makers, asked, form)?)?;
    }
    Ok(found)
}

// Cases of a callee whose function is of these types; if it is none that is asked by cases, they fit no function.
fn cases_by(
    alloc: Global,
    makers: &Makers<'_>,
    asked: Option<Asked<'_>>,
    callee: &Callee,
    cases: &[(List<Written>, AnswerForm)],
    rest: &AnswerForm,
) -> Result<PureAnswers, AllocError>
    ensures { IfOk result (λ a. (env : Environment) → env.types ≡ makers.now
        → pure_answers a
        ≡ cases_by env (option_map asked_seen asked.entry) callee.now (map case_seen cases.now)
        (answer_seen rest.now)) }
{
    let callee = callee.copied(alloc)?;
    let Some(asked) = asked else {
        return Ok(PureAnswers {
            callee,
            cases: List::new(Vec::new(alloc)),
            rest: unfit(alloc)?,
        });
    };
    let cases = all_cases(alloc, makers, asked, cases)?;
    let rest = answer_at(alloc, makers, asked.results, rest)?;
    Ok(PureAnswers {
        callee,
        cases: List::new(cases),
        rest,
    })
}

// The cases that a form gives; the other forms give none.
fn cases_of(
    alloc: Global,
    makers: &Makers<'_>,
    functions: &AskedFunctions<'_>,
    form: &Form,
) -> Result<Option<PureAnswers>, AllocError>
    ensures { IfOk result (λ a.
        OfTypes functions.now (λ env. env.types ≡ makers.now → (rest : Prelude.List pure_form.Form)
        → cases_at env (form_seen form.now ∷ rest)
        ≡ cons_option (option_map pure_answers a) (cases_at env rest))) }
{
    match form {
        Form::Answers {
            callee,
            cases,
            rest,
            ..
        } => {
            let asked = functions.of(callee);
            let cases = cases_by(alloc, makers, asked, callee, cases.as_slice(), rest)?;
            Ok(Some(cases))
        }
        Form::Held { .. } | Form::Const { .. } | Form::Turns { .. } => Ok(None),
    }
}

/// Returns the cases that forms give, in order, their values at the types of what the callees take and give; those of a
/// callee whose function is not asked by cases fit no function.
pub fn cases_at(
    alloc: Global,
    makers: &Makers<'_>,
    termenv: &TermEnv,
    forms: &[Form],
) -> Result<Vec<PureAnswers>, OutOfMemory>
    ensures { IfOk result (λ found.
        map pure_answers found.items
        ≡ cases_at (environment makers.now termenv.now) (forms_seen forms.now)) }
{
    let functions = AskedFunctions::new(alloc, makers.typeenv(), termenv.terms.as_slice())?;
    let mut all = Vec::new(alloc);
    for form in forms {
        if let Some(cases) = cases_of(alloc, makers, &functions, form)? {
            all.push(cases)?;
        }
    }
    Ok(all)
}
