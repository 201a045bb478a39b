//! The answers that forms give.

ghost use Rattle.std.specs.Prelude.{◌≡◌, IfOk, ◌+◌, ◌<◌, ◌^◌, length};
ghost use Rattle.isle_core.specs.ValueViews.{meaning};
ghost use Rattle.isle_answers.specs.Views.{forms_seen};
ghost use Rattle.isle_core.specs.RuleViews.{environment};
ghost use Rattle.isle_run_inputs.specs.AnswersAt.{answers_at};
ghost use Rattle.isle_run_inputs.specs.Held.{held_at};

use crate::cases::cases_at;
use crate::constants::constants_at;
use crate::held::held_at;
use crate::makers::Makers;
use crate::turns::turns_at;
use isle_answers::Form;
use isle_core::{Answers, List, OutOfMemory, TermEnv, TypeEnv};
use std::alloc::Global;

/// Returns the answers that forms give, their values at the types of constants and of what callees take and answer; a
/// value of another type is one of no type. They tell how long the list of results is at entry, too.
pub fn answers_at(
    alloc: Global,
    typeenv: &TypeEnv,
    termenv: &TermEnv,
    forms: &[Form],
) -> Result<Answers, OutOfMemory>
    ensures answers { IfOk result (λ a.
        meaning a ≡ answers_at (environment typeenv.now termenv.now) (forms_seen forms.now)) }
    ensures held { IfOk result (λ a. a.held ≡ held_at (forms_seen forms.now)) }
    ensures counted { IfOk result (λ a. length a.consts + length a.pure + length a.turns < 2 ^ 64) }
{
    let makers = Makers::new(alloc, typeenv)?;
    let consts = constants_at(alloc, &makers, forms)?;
    let pure = cases_at(alloc, &makers, termenv, forms)?;
    let turns = turns_at(alloc, &makers, termenv, forms)?;
    Ok(Answers {
        consts: List::new(consts),
        pure: List::new(pure),
        turns: List::new(turns),
        held: held_at(forms),
    })
}
