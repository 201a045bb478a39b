ghost use Rattle.std.specs.Prelude.{◌≡◌, IfOk, option_map};
ghost use Rattle.isle_reading.specs.Combinators.{next_word};
ghost use Rattle.isle_reading.specs.Views.{left, Reads};
ghost use Rattle.isle_answers.specs.Reading.{answer_head_of, read_answer_head, read_answer_after};
ghost use Rattle.isle_answers.specs.Reading.{read_answer_list, read_answer};
ghost use Rattle.isle_answers.specs.Views.{answer_seen};
ghost use Rattle.isle_answers.specs.HeadViews.{answer_head_seen};

use crate::form::AnswerForm;
use crate::result::{ResultHead, result, result_after, result_head_of, results, simple_result};
use isle_core::List;
use isle_reading::{Fail, Tokens};
use std::alloc::{AllocError, Global};

/// What a list is that is an answer.
#[derive(Drop)]
pub enum AnswerHead {
    Some,
    Nothing,
    List,
    Result(ResultHead),
}

// What an answer's list is, by the word that is next.
#[tactic(auto, using(isle_reading::proofs::Steps::next))]
fn next_head(tokens: &Tokens<'_>, alloc: Global) -> Result<Option<AnswerHead>, AllocError>
    ensures { IfOk result (λ next.
        option_map answer_head_seen next ≡ next_word answer_head_of (left tokens.now)) }
{
    let Some(word) = tokens.word() else {
        return Ok(None);
    };
    match word {
        "some" => Ok(Some(AnswerHead::Some)),
        "none" => Ok(Some(AnswerHead::Nothing)),
        "list" => Ok(Some(AnswerHead::List)),
        _ => match result_head_of(alloc, word)? {
            Some(head) => Ok(Some(AnswerHead::Result(head))),
            None => Ok(None),
        },
    }
}

// What an answer's list is, by its first word.
#[tactic(auto, using(isle_reading::proofs::Steps::words), unfolding(crate::specs::Reading::read_answer_head))]
fn answer_head(tokens: &mut Tokens<'_>, alloc: Global) -> Result<AnswerHead, Fail>
    ensures { Reads answer_head_seen result read_answer_head (left tokens.old) (left tokens.new) }
{
    match next_head(tokens, alloc)? {
        Some(head) => {
            tokens.skip();
            Ok(head)
        }
        None => Err(Fail::At(tokens.len())),
    }
}

// What stands after the first word of an answer's list.
#[tactic(auto, using(isle_reading::proofs::Steps::chain), unfolding(crate::specs::Reading::read_answer_after))]
fn answer_after(
    tokens: &mut Tokens<'_>,
    alloc: Global,
    most: usize,
    depth: usize,
    head: AnswerHead,
) -> Result<AnswerForm, Fail>
    ensures { Reads answer_seen result (read_answer_after most depth (answer_head_seen head))
        (left tokens.old) (left tokens.new) }
{
    match head {
        AnswerHead::Some => {
            let found = result(tokens, alloc, most, depth)?;
            tokens.close()?;
            Ok(AnswerForm::Some(found))
        }
        AnswerHead::Nothing => {
            tokens.close()?;
            Ok(AnswerForm::Nothing)
        }
        AnswerHead::List => {
            let several = results(tokens, alloc, most, depth)?;
            Ok(AnswerForm::List(List::new(several)))
        }
        AnswerHead::Result(head) => Ok(AnswerForm::Plain(result_after(
            tokens, alloc, most, depth, head,
        )?)),
    }
}

// An answer's list.
#[tactic(auto, using(isle_reading::proofs::Steps::chain), unfolding(crate::specs::Reading::read_answer_list))]
fn answer_list(
    tokens: &mut Tokens<'_>,
    alloc: Global,
    most: usize,
    depth: usize,
) -> Result<AnswerForm, Fail>
    ensures { Reads answer_seen result (read_answer_list most depth) (left tokens.old)
        (left tokens.new) }
{
    tokens.open()?;
    let head = answer_head(tokens, alloc)?;
    answer_after(tokens, alloc, most, depth, head)
}

/// Reads an answer whose parentheses nest at most `depth` deep, its lists of at most `most` tokens.
#[tactic(auto, using(crate::proofs::Choices::answer_choice))]
pub fn answer(
    tokens: &mut Tokens<'_>,
    alloc: Global,
    most: usize,
    depth: usize,
) -> Result<AnswerForm, Fail>
    ensures { Reads answer_seen result (read_answer most depth) (left tokens.old)
        (left tokens.new) }
{
    match tokens.opens() {
        None => Ok(AnswerForm::Plain(simple_result(tokens)?)),
        Some(_) => {
            if depth == 0 {
                return Err(Fail::At(tokens.len()));
            }
            answer_list(tokens, alloc, most, depth - 1)
        }
    }
}
