ghost use Rattle.std.specs.Prelude.{◌≡◌, IfOk, map, option_map};
ghost use Rattle.isle_reading.specs.Combinators.{next_word, many};
ghost use Rattle.isle_reading.specs.Views.{left, Reads};
ghost use Rattle.isle_answers.specs.Reading.{result_head_of, read_result_head, read_simple_result};
ghost use Rattle.isle_answers.specs.Reading.{read_result_after, read_result_list, read_result};
ghost use Rattle.isle_answers.specs.Views.{result_seen};
ghost use Rattle.isle_answers.specs.HeadViews.{result_head_seen};

use crate::form::ResultForm;
use crate::words::is_reserved;
use isle_core::{List, Text};
use isle_lexer::is_name;
use isle_reading::{Fail, Tokens};
use isle_values::{Written, parts, simple};
use std::alloc::{AllocError, Global};

/// What a list is that is a result.
#[derive(Drop)]
pub enum ResultHead {
    Tuple,
    Made(Text),
}

/// Returns what a result's list is that begins with the word.
pub fn result_head_of(alloc: Global, word: &str) -> Result<Option<ResultHead>, AllocError>
    ensures { IfOk result (λ read. option_map result_head_seen read ≡ result_head_of word.now) }
{
    if word == "tuple" {
        return Ok(Some(ResultHead::Tuple));
    }
    if is_reserved(word) || !is_name(word) {
        return Ok(None);
    }
    Ok(Some(ResultHead::Made(Text::copied(alloc, word)?)))
}

// What a result's list is, by the word that is next.
#[tactic(auto, using(isle_reading::proofs::Steps::next))]
fn next_head(tokens: &Tokens<'_>, alloc: Global) -> Result<Option<ResultHead>, AllocError>
    ensures { IfOk result (λ next.
        option_map result_head_seen next ≡ next_word result_head_of (left tokens.now)) }
{
    match tokens.word() {
        Some(word) => result_head_of(alloc, word),
        None => Ok(None),
    }
}

// What a result's list is, by its first word.
#[tactic(auto, using(isle_reading::proofs::Steps::words), unfolding(crate::specs::Reading::read_result_head))]
fn result_head(tokens: &mut Tokens<'_>, alloc: Global) -> Result<ResultHead, Fail>
    ensures { Reads result_head_seen result read_result_head (left tokens.old) (left tokens.new) }
{
    match next_head(tokens, alloc)? {
        Some(head) => {
            tokens.skip();
            Ok(head)
        }
        None => Err(Fail::At(tokens.len())),
    }
}

/// Reads a result of one word.
#[tactic(auto, using(isle_reading::proofs::Steps::chain), unfolding(crate::specs::Reading::read_simple_result))]
pub fn simple_result(tokens: &mut Tokens<'_>) -> Result<ResultForm, Fail>
    ensures { Reads result_seen result read_simple_result (left tokens.old) (left tokens.new) }
{
    Ok(ResultForm::One(simple(tokens)?))
}

/// Reads what stands after the first word of a result's list.
#[tactic(auto, using(isle_reading::proofs::Steps::chain, isle_values::proofs::Sees::sees), unfolding(crate::specs::Reading::read_result_after))]
pub fn result_after(
    tokens: &mut Tokens<'_>,
    alloc: Global,
    most: usize,
    depth: usize,
    head: ResultHead,
) -> Result<ResultForm, Fail>
    ensures { Reads result_seen result (read_result_after most depth (result_head_seen head))
        (left tokens.old) (left tokens.new) }
{
    let values = List::new(parts(tokens, alloc, most, depth)?);
    match head {
        ResultHead::Tuple => Ok(ResultForm::Tuple(values)),
        ResultHead::Made(name) => Ok(ResultForm::One(Written::Made(name, values))),
    }
}

// A result's list.
#[tactic(auto, using(isle_reading::proofs::Steps::chain), unfolding(crate::specs::Reading::read_result_list))]
fn result_list(
    tokens: &mut Tokens<'_>,
    alloc: Global,
    most: usize,
    depth: usize,
) -> Result<ResultForm, Fail>
    ensures { Reads result_seen result (read_result_list most depth) (left tokens.old)
        (left tokens.new) }
{
    tokens.open()?;
    let head = result_head(tokens, alloc)?;
    result_after(tokens, alloc, most, depth, head)
}

/// Reads a result whose parentheses nest at most `depth` deep, its lists of at most `most` tokens.
#[tactic(auto, using(crate::proofs::Choices::result_choice))]
pub fn result(
    tokens: &mut Tokens<'_>,
    alloc: Global,
    most: usize,
    depth: usize,
) -> Result<ResultForm, Fail>
    ensures { Reads result_seen result (read_result most depth) (left tokens.old)
        (left tokens.new) }
{
    match tokens.opens() {
        None => simple_result(tokens),
        Some(_) => {
            if depth == 0 {
                return Err(Fail::At(tokens.len()));
            }
            result_list(tokens, alloc, most, depth - 1)
        }
    }
}

/// Reads results up to a closing parenthesis, which is taken, of at most `most` tokens.
#[tactic(auto, using(isle_reading::proofs::ListSteps::lists))]
pub fn results(
    tokens: &mut Tokens<'_>,
    alloc: Global,
    most: usize,
    depth: usize,
) -> Result<Vec<ResultForm>, Fail>
    ensures { Reads (λ read. map result_seen read.items) result (many most (read_result most depth))
        (left tokens.old) (left tokens.new) }
{
    let mut results = Vec::new(alloc);
    for _ in 0..most {
        match tokens.closes() {
            Some(_) => {
                tokens.skip();
                return Ok(results);
            }
            None => results.push(result(tokens, alloc, most, depth)?)?,
        }
    }
    Err(Fail::At(tokens.len()))
}
