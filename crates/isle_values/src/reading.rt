ghost use Rattle.std.specs.Prelude.{◌≡◌, map, option_map};
ghost use Rattle.isle_reading.specs.Combinators.{next_word, many};
ghost use Rattle.isle_reading.specs.Views.{left, Reads};
ghost use Rattle.isle_values.specs.Reading.{word_value, read_simple, read_value, read_list, read_whole};
ghost use Rattle.isle_values.specs.Views.{written};

use crate::written::Written;
use isle_core::List;
use isle_lexer::signed_of;
use isle_reading::{Fail, Tokens, most_inside};
use std::alloc::Global;

// The value that a word is.
#[tactic(auto, using(crate::proofs::Sees::sees))]
fn word_value(word: &str) -> Option<Written>
    ensures { option_map written result ≡ word_value word.now }
{
    match word {
        "true" => Some(Written::Bool(true)),
        "false" => Some(Written::Bool(false)),
        _ => Some(Written::Number(signed_of(word.as_bytes())?)),
    }
}

// A value of one word that is next.
#[tactic(auto, using(isle_reading::proofs::Steps::next))]
fn next_simple(tokens: &Tokens<'_>) -> Option<Written>
    ensures { option_map written result ≡ next_word word_value (left tokens.now) }
{
    word_value(tokens.word()?)
}

/// Reads a value of one word.
#[tactic(auto, using(isle_reading::proofs::Steps::words), unfolding(crate::specs::Reading::read_simple))]
pub fn simple(tokens: &mut Tokens<'_>) -> Result<Written, Fail>
    ensures { Reads written result read_simple (left tokens.old) (left tokens.new) }
{
    match next_simple(tokens) {
        Some(value) => {
            tokens.skip();
            Ok(value)
        }
        None => Err(Fail::At(tokens.len())),
    }
}

/// Reads a value whose parentheses nest at most `depth` deep, its lists of at most `most` tokens.
#[cycle(values)]
#[tactic(auto, using(crate::proofs::ValueSteps::value_steps, crate::proofs::Sees::sees))]
pub fn value(
    tokens: &mut Tokens<'_>,
    alloc: Global,
    most: usize,
    depth: usize,
) -> Result<Written, Fail>
    ensures { Reads written result (read_value most depth) (left tokens.old) (left tokens.new) }
{
    match tokens.opens() {
        None => simple(tokens),
        Some(_) => {
            if depth == 0 {
                return Err(Fail::At(tokens.len()));
            }
            tokens.open()?;
            let name = tokens.name(alloc)?;
            let inner = parts(tokens, alloc, most, depth - 1)?;
            Ok(Written::Made(name, List::new(inner)))
        }
    }
}

/// Reads values up to a closing parenthesis, which is taken, of at most `most` tokens.
#[cycle(values)]
#[tactic(auto, using(crate::proofs::ValueSteps::lists))]
pub fn parts(
    tokens: &mut Tokens<'_>,
    alloc: Global,
    most: usize,
    depth: usize,
) -> Result<Vec<Written>, Fail>
    ensures { Reads (λ parts. map written parts.items) result (many most (read_value most depth))
        (left tokens.old) (left tokens.new) }
{
    let mut values = Vec::new(alloc);
    for _ in 0..most {
        match tokens.closes() {
            Some(_) => {
                tokens.skip();
                return Ok(values);
            }
            None => values.push(value(tokens, alloc, most, depth)?)?,
        }
    }
    Err(Fail::At(tokens.len()))
}

/// Reads a list of values, with its parentheses.
#[tactic(auto, using(isle_reading::proofs::Steps::chain), unfolding(crate::specs::Reading::read_list))]
pub fn list(
    tokens: &mut Tokens<'_>,
    alloc: Global,
    most: usize,
    depth: usize,
) -> Result<Vec<Written>, Fail>
    ensures { Reads (λ values. map written values.items) result (read_list most depth)
        (left tokens.old) (left tokens.new) }
{
    tokens.open()?;
    parts(tokens, alloc, most, depth)
}

/// Reads a list of values, of at most `most` tokens, and nothing after it.
#[tactic(auto, using(isle_reading::proofs::Steps::chain), unfolding(crate::specs::Reading::read_whole))]
pub fn whole(tokens: &mut Tokens<'_>, alloc: Global, most: usize) -> Result<Vec<Written>, Fail>
    ensures { Reads (λ values. map written values.items) result (read_whole most) (left tokens.old)
        (left tokens.new) }
{
    let values = list(tokens, alloc, most, most_inside())?;
    if tokens.len() == 0 {
        return Ok(values);
    }
    Err(Fail::At(tokens.len()))
}
