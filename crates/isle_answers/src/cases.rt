ghost use Rattle.std.specs.Prelude.{◌≡◌, [], map, option_map};
ghost use Rattle.isle_reading.specs.Combinators.{next_word};
ghost use Rattle.isle_reading.specs.Views.{left, Reads};
ghost use Rattle.isle_answers.specs.Reading.{part_head_of, read_part_head, read_case, read_rest, read_cases};
ghost use Rattle.isle_answers.specs.Views.{answer_seen, case_seen};
ghost use Rattle.isle_answers.specs.HeadViews.{part_head_seen};

use crate::answer::answer;
use crate::form::AnswerForm;
use isle_core::List;
use isle_reading::{Fail, Tokens};
use isle_values::{Written, list};
use std::alloc::Global;

/// What a list in `answers` is.
#[derive(Clone, Copy)]
enum PartHead {
    Case,
    Rest,
}

// What the list is, by the word that is next.
#[tactic(auto, using(isle_reading::proofs::Steps::next))]
fn next_head(tokens: &Tokens<'_>) -> Option<PartHead>
    ensures { option_map part_head_seen result ≡ next_word part_head_of (left tokens.now) }
{
    match tokens.word()? {
        "case" => Some(PartHead::Case),
        "rest" => Some(PartHead::Rest),
        _ => None,
    }
}

// What the list is, by its first word.
#[tactic(auto, using(isle_reading::proofs::Steps::words), unfolding(crate::specs::Reading::read_part_head))]
fn part_head(tokens: &mut Tokens<'_>) -> Result<PartHead, Fail>
    ensures { Reads part_head_seen result read_part_head (left tokens.old) (left tokens.new) }
{
    match next_head(tokens) {
        Some(head) => {
            tokens.skip();
            Ok(head)
        }
        None => Err(Fail::At(tokens.len())),
    }
}

// The arguments and the answer of a case, whose closing parenthesis is taken.
#[tactic(auto, using(isle_reading::proofs::Steps::chain), unfolding(crate::specs::Reading::read_case))]
fn case(
    tokens: &mut Tokens<'_>,
    alloc: Global,
    most: usize,
    depth: usize,
) -> Result<(List<Written>, AnswerForm), Fail>
    ensures { Reads case_seen result (read_case most depth) (left tokens.old) (left tokens.new) }
{
    let args = list(tokens, alloc, most, depth.saturating_sub(1))?;
    let found = answer(tokens, alloc, most, depth)?;
    tokens.close()?;
    Ok((List::new(args), found))
}

// The answer of the rest, whose closing parenthesis is taken, and the one after it.
#[tactic(auto, using(isle_reading::proofs::Steps::chain), unfolding(crate::specs::Reading::read_rest))]
fn rest(
    tokens: &mut Tokens<'_>,
    alloc: Global,
    most: usize,
    depth: usize,
) -> Result<AnswerForm, Fail>
    ensures { Reads answer_seen result (read_rest most depth) (left tokens.old) (left tokens.new) }
{
    let found = answer(tokens, alloc, most, depth)?;
    tokens.close()?;
    tokens.close()?;
    Ok(found)
}

/// Reads cases, the rest, and the closing parenthesis after it, of at most `most` tokens.
#[tactic(auto, using(crate::proofs::CaseSteps::cases_steps))]
pub fn cases(
    tokens: &mut Tokens<'_>,
    alloc: Global,
    most: usize,
    depth: usize,
) -> Result<(Vec<(List<Written>, AnswerForm)>, AnswerForm), Fail>
    ensures { Reads (λ read. (map case_seen read.0.items, answer_seen read.1)) result
        (read_cases most depth most [])
        (left tokens.old) (left tokens.new) }
{
    let mut cases = Vec::new(alloc);
    for _ in 0..most {
        tokens.open()?;
        match part_head(tokens)? {
            PartHead::Case => cases.push(case(tokens, alloc, most, depth)?)?,
            PartHead::Rest => return Ok((cases, rest(tokens, alloc, most, depth)?)),
        }
    }
    Err(Fail::At(tokens.len()))
}
