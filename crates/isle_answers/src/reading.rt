ghost use Rattle.std.specs.Prelude.{◌≡◌, ◌-◌, IfOk, option_map};
ghost use Rattle.isle_reading.specs.Combinators.{next_word};
ghost use Rattle.isle_reading.specs.Nesting.{most_open};
ghost use Rattle.isle_reading.specs.Views.{left, Reads};
ghost use Rattle.isle_answers.specs.Words.{count_of, callee_of};
ghost use Rattle.isle_answers.specs.Reading.{form_head_of, read_form_head, read_count, read_callee};
ghost use Rattle.isle_answers.specs.Reading.{read_held, read_const, read_answers, read_turned};
ghost use Rattle.isle_answers.specs.Reading.{read_form_after, held_after, read_form, read_forms};
ghost use Rattle.isle_answers.specs.Views.{form_seen, forms_seen};
ghost use Rattle.isle_answers.specs.HeadViews.{form_head_seen};

use crate::cases::cases;
use crate::form::Form;
use crate::turns::turns;
use crate::words::{callee_of, count_of};
use isle_core::{Callee, List};
use isle_reading::{Fail, Tokens, most_inside};
use isle_values::value;
use std::alloc::{AllocError, Global};

/// What a form is.
#[derive(Clone, Copy)]
enum FormHead {
    Held,
    Const,
    Answers,
    Turns,
}

// What the form is that is next, where `held` may still stand or may not.
#[tactic(auto, using(isle_reading::proofs::Steps::next))]
fn next_head(tokens: &Tokens<'_>, held: bool) -> Option<FormHead>
    ensures { option_map form_head_seen result ≡ next_word (form_head_of held) (left tokens.now) }
{
    match tokens.word()? {
        "held" if held => Some(FormHead::Held),
        "const" => Some(FormHead::Const),
        "answers" => Some(FormHead::Answers),
        "turns" => Some(FormHead::Turns),
        _ => None,
    }
}

// What a form is.
#[tactic(auto, using(isle_reading::proofs::Steps::words), unfolding(crate::specs::Reading::read_form_head))]
fn head(tokens: &mut Tokens<'_>, held: bool) -> Result<FormHead, Fail>
    ensures { Reads form_head_seen result (read_form_head held) (left tokens.old)
        (left tokens.new) }
{
    match next_head(tokens, held) {
        Some(head) => {
            tokens.skip();
            Ok(head)
        }
        None => Err(Fail::At(tokens.len())),
    }
}

// A count that is next.
#[tactic(auto, using(isle_reading::proofs::Steps::next))]
fn next_count(tokens: &Tokens<'_>) -> Option<usize>
    ensures { result ≡ next_word count_of (left tokens.now) }
{
    count_of(tokens.word()?)
}

// A count.
#[tactic(auto, using(isle_reading::proofs::Steps::words), unfolding(crate::specs::Reading::read_count))]
fn count(tokens: &mut Tokens<'_>) -> Result<usize, Fail>
    ensures { Reads (λ count. count) result read_count (left tokens.old) (left tokens.new) }
{
    match next_count(tokens) {
        Some(count) => {
            tokens.skip();
            Ok(count)
        }
        None => Err(Fail::At(tokens.len())),
    }
}

// The count of `held` at that place, and the closing parenthesis after it.
#[tactic(auto, using(isle_reading::proofs::Steps::chain), unfolding(crate::specs::Reading::read_held))]
fn held_form(tokens: &mut Tokens<'_>, at: usize) -> Result<Form, Fail>
    ensures { Reads form_seen result (read_held at) (left tokens.old) (left tokens.new) }
{
    let count = count(tokens)?;
    tokens.close()?;
    Ok(Form::Held { count, at })
}

// What is called, by the word that is next.
#[tactic(auto, using(isle_reading::proofs::Steps::next))]
fn next_callee(tokens: &Tokens<'_>, alloc: Global) -> Result<Option<Callee>, AllocError>
    ensures { IfOk result (λ next. next ≡ next_word callee_of (left tokens.now)) }
{
    match tokens.word() {
        Some(word) => callee_of(alloc, word),
        None => Ok(None),
    }
}

// What is called.
#[tactic(auto, using(isle_reading::proofs::Steps::words), unfolding(crate::specs::Reading::read_callee))]
fn callee(tokens: &mut Tokens<'_>, alloc: Global) -> Result<Callee, Fail>
    ensures { Reads (λ callee. callee) result read_callee (left tokens.old) (left tokens.new) }
{
    match next_callee(tokens, alloc)? {
        Some(callee) => {
            tokens.skip();
            Ok(callee)
        }
        None => Err(Fail::At(tokens.len())),
    }
}

// What stands after the word of the constant at that place.
#[tactic(auto, using(isle_reading::proofs::Steps::chain), unfolding(crate::specs::Reading::read_const))]
fn constant(
    tokens: &mut Tokens<'_>,
    alloc: Global,
    most: usize,
    depth: usize,
    at: usize,
) -> Result<Form, Fail>
    ensures { Reads form_seen result (read_const most depth at) (left tokens.old)
        (left tokens.new) }
{
    let name = tokens.name(alloc)?;
    let value = value(tokens, alloc, most, depth)?;
    tokens.close()?;
    Ok(Form::Const { name, value, at })
}

// What is called, the cases and the rest of `answers` at that place.
#[tactic(auto, using(isle_reading::proofs::Steps::chain), unfolding(crate::specs::Reading::read_answers))]
fn answered(
    tokens: &mut Tokens<'_>,
    alloc: Global,
    most: usize,
    depth: usize,
    at: usize,
) -> Result<Form, Fail>
    ensures { Reads form_seen result (read_answers most depth at) (left tokens.old)
        (left tokens.new) }
{
    let callee = callee(tokens, alloc)?;
    let (cases, rest) = cases(tokens, alloc, most, depth.saturating_sub(1))?;
    Ok(Form::Answers {
        callee,
        cases: List::new(cases),
        rest,
        at,
    })
}

// What is called, the turns and the rest of `turns` at that place.
#[tactic(auto, using(isle_reading::proofs::Steps::chain), unfolding(crate::specs::Reading::read_turned))]
fn turned(
    tokens: &mut Tokens<'_>,
    alloc: Global,
    most: usize,
    depth: usize,
    at: usize,
) -> Result<Form, Fail>
    ensures { Reads form_seen result (read_turned most depth at) (left tokens.old)
        (left tokens.new) }
{
    let callee = callee(tokens, alloc)?;
    let (turns, rest) = turns(tokens, alloc, most, depth)?;
    Ok(Form::Turns {
        callee,
        turns: List::new(turns),
        rest,
        at,
    })
}

// What stands after the first word of the form at that place.
fn form_after(
    tokens: &mut Tokens<'_>,
    alloc: Global,
    most: usize,
    depth: usize,
    at: usize,
    head: FormHead,
) -> Result<Form, Fail>
    ensures { Reads form_seen result (read_form_after most depth at (form_head_seen head))
        (left tokens.old) (left tokens.new) }
{
    match head {
        FormHead::Held => held_form(tokens, at),
        FormHead::Const => constant(tokens, alloc, most, depth, at),
        FormHead::Answers => answered(tokens, alloc, most, depth, at),
        FormHead::Turns => turned(tokens, alloc, most, depth, at),
    }
}

// A form, where `held` may still stand or may not.
#[tactic(auto, using(isle_reading::proofs::Steps::chain), unfolding(crate::specs::Reading::read_form))]
fn form(tokens: &mut Tokens<'_>, alloc: Global, most: usize, held: bool) -> Result<Form, Fail>
    ensures { Reads form_seen result (read_form most (most_open - 1) held) (left tokens.old)
        (left tokens.new) }
{
    let at = tokens.open()?;
    let head = head(tokens, held)?;
    form_after(tokens, alloc, most, most_inside(), at, head)
}

// Whether `held` may still stand after the form.
fn held_after(held: bool, form: &Form) -> bool
    ensures { result ≡ held_after held (form_seen form.now) }
{
    match form {
        Form::Held { .. } => false,
        _ => held,
    }
}

/// Reads the forms of a file of at most `most` tokens, up to its end.
#[tactic(auto, using(isle_reading::proofs::ListSteps::alls), unfolding(crate::specs::Reading::read_forms))]
pub fn all_forms(tokens: &mut Tokens<'_>, alloc: Global, most: usize) -> Result<Vec<Form>, Fail>
    ensures { Reads (λ read. forms_seen read.items) result (read_forms most) (left tokens.old)
        (left tokens.new) }
{
    let mut forms = Vec::new(alloc);
    let mut held = true;
    for _ in 0..most {
        if tokens.len() == 0 {
            return Ok(forms);
        }
        let form = form(tokens, alloc, most, held)?;
        held = held_after(held, &form);
        forms.push(form)?;
    }
    if tokens.len() == 0 {
        return Ok(forms);
    }
    Err(Fail::At(tokens.len()))
}
