ghost use Rattle.std.specs.Prelude.{◌≡◌, [], IfOk, map, option_map, reverse};
ghost use Rattle.isle_reading.specs.Views.{left, Reads};
ghost use Rattle.isle_values.specs.Views.{written, seen};
ghost use Rattle.isle_values.specs.Written.{Made};
ghost use Rattle.isle_answers.specs.Reading.{result_is, results_are, only_of, answer_is, rest_is, ended, read_turns};
ghost use Rattle.isle_answers.specs.Views.{result_seen, answer_seen};

use crate::answer::answer;
use crate::form::{AnswerForm, ResultForm};
use crate::words::is_reserved;
use isle_core::{List, Text};
use isle_reading::{Fail, Tokens};
use isle_values::Written;
use std::alloc::{AllocError, Global};

// The result that a made value is.
#[tactic(auto, using(isle_values::proofs::Sees::sees))]
fn made_result(name: Text, parts: List<Written>) -> Option<ResultForm>
    ensures { option_map result_seen result ≡ result_is (Made name (seen parts)) }
{
    if name.as_str() == "tuple" {
        return Some(ResultForm::Tuple(parts));
    }
    if is_reserved(name.as_str()) {
        return None;
    }
    Some(ResultForm::One(Written::Made(name, parts)))
}

// The result that a value is.
#[tactic(auto, using(isle_values::proofs::Sees::sees))]
fn result_is(value: Written) -> Option<ResultForm>
    ensures { option_map result_seen result ≡ result_is (written value) }
{
    match value {
        Written::Made(name, parts) => made_result(name, parts),
        other => Some(ResultForm::One(other)),
    }
}

// The only one of these values.
fn only(parts: List<Written>) -> Option<Written>
    ensures { option_map written result ≡ only_of (seen parts) }
{
    let mut values = parts.into_vec();
    if values.len() == 1 {
        values.pop()
    } else {
        None
    }
}

// The results that values are.
fn results_are(alloc: Global, parts: List<Written>) -> Result<Option<Vec<ResultForm>>, AllocError>
    ensures { IfOk result (λ read.
        option_map (λ rs. map result_seen rs.items) read ≡ results_are (seen parts)) }
{
    let mut results = Vec::new(alloc);
    for value in parts.into_vec() {
        match result_is(value) {
            Some(read) => results.push(read)?,
            None => return Ok(None),
        }
    }
    Ok(Some(results))
}

// The answer that a value is.
#[tactic(auto, using(isle_values::proofs::Sees::sees))]
fn answer_is(alloc: Global, value: Written) -> Result<Option<AnswerForm>, AllocError>
    ensures { IfOk result (λ read. option_map answer_seen read ≡ answer_is (written value)) }
{
    let (name, parts) = match value {
        Written::Made(name, parts) => (name, parts),
        other => return Ok(Some(AnswerForm::Plain(ResultForm::One(other)))),
    };
    match name.as_str() {
        "some" => match only(parts) {
            Some(inner) => match result_is(inner) {
                Some(read) => Ok(Some(AnswerForm::Some(read))),
                None => Ok(None),
            },
            None => Ok(None),
        },
        "none" => {
            if parts.as_slice().is_empty() {
                Ok(Some(AnswerForm::Nothing))
            } else {
                Ok(None)
            }
        }
        "list" => match results_are(alloc, parts)? {
            Some(results) => Ok(Some(AnswerForm::List(List::new(results)))),
            None => Ok(None),
        },
        _ => match made_result(name, parts) {
            Some(read) => Ok(Some(AnswerForm::Plain(read))),
            None => Ok(None),
        },
    }
}

// The answer in the rest that a turn is.
#[tactic(auto, using(isle_values::proofs::Sees::sees))]
fn rest_is(alloc: Global, turn: AnswerForm) -> Result<Option<AnswerForm>, AllocError>
    ensures { IfOk result (λ read. option_map answer_seen read ≡ rest_is (answer_seen turn)) }
{
    match turn {
        AnswerForm::Plain(ResultForm::One(Written::Made(name, parts))) => {
            if name.as_str() != "rest" {
                return Ok(None);
            }
            match only(parts) {
                Some(value) => answer_is(alloc, value),
                None => Ok(None),
            }
        }
        _ => Ok(None),
    }
}

// The answer in the last turn, which is taken out, if that is a rest.
fn ended(alloc: Global, turns: &mut Vec<AnswerForm>) -> Result<Option<AnswerForm>, AllocError>
    ensures { IfOk result (λ read.
        option_map (λ a. (map answer_seen turns.new.items, answer_seen a)) read
        ≡ ended (reverse (map answer_seen turns.old.items))) }
{
    match turns.pop() {
        Some(last) => rest_is(alloc, last),
        None => Ok(None),
    }
}

/// Reads turns, the rest, and the closing parenthesis after it, of at most `most` tokens.
#[tactic(auto, using(crate::proofs::TurnSteps::turns_steps))]
pub fn turns(
    tokens: &mut Tokens<'_>,
    alloc: Global,
    most: usize,
    depth: usize,
) -> Result<(Vec<AnswerForm>, AnswerForm), Fail>
    ensures { Reads (λ read. (map answer_seen read.0.items, answer_seen read.1)) result
        (read_turns most depth most [])
        (left tokens.old) (left tokens.new) }
{
    let mut turns = Vec::new(alloc);
    for _ in 0..most {
        if tokens.closes().is_some() {
            return match ended(alloc, &mut turns)? {
                Some(rest) => {
                    tokens.skip();
                    Ok((turns, rest))
                }
                None => Err(Fail::At(tokens.len())),
            };
        }
        turns.push(answer(tokens, alloc, most, depth)?)?;
    }
    Err(Fail::At(tokens.len()))
}
