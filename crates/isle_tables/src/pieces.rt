//! The pieces that lines of written tables are made of.

ghost use Rattle.std.specs.Prelude.{◌≡◌, option_map};
ghost use Rattle.isle_reading.specs.Combinators.{next_word, many};
ghost use Rattle.isle_reading.specs.Views.{left, Reads};
ghost use Rattle.isle_tables.specs.Words.{symbol_of, count_of};
ghost use Rattle.isle_tables.specs.Reading.{flag_of, read_symbol, read_placed, read_count};
ghost use Rattle.isle_tables.specs.Reading.{read_key};
ghost use Rattle.isle_tables.specs.Reading.{read_flag, read_counted};

use crate::words::{count_of, is_symbol};
use isle_core::Text;
use isle_reading::{Fail, Tokens};
use std::alloc::Global;

/// Returns a symbol that is next.
#[tactic(auto, using(isle_reading::proofs::Steps::next), unfolding(crate::specs::Words::symbol_of))]
pub fn next_symbol<'t>(tokens: &Tokens<'t>) -> Option<&'t str>
    ensures { option_map (λ word. word.now) result ≡ next_word symbol_of (left tokens.now) }
{
    let word = tokens.word()?;
    if is_symbol(word) { Some(word) } else { None }
}

/// Reads a symbol, which borrows the text.
#[tactic(auto, using(isle_reading::proofs::Steps::words), unfolding(crate::specs::Reading::read_symbol))]
pub fn symbol_word<'t>(tokens: &mut Tokens<'t>) -> Result<&'t str, Fail>
    ensures { Reads (λ word. word.now) result read_symbol (left tokens.old) (left tokens.new) }
{
    match next_symbol(tokens) {
        Some(word) => {
            tokens.skip();
            Ok(word)
        }
        None => Err(Fail::At(tokens.len())),
    }
}

/// Reads a symbol.
pub fn symbol(tokens: &mut Tokens<'_>, alloc: Global) -> Result<Text, Fail>
    ensures { Reads (λ text. text) result read_symbol (left tokens.old) (left tokens.new) }
{
    let word = symbol_word(tokens)?;
    Ok(Text::copied(alloc, word)?)
}

/// Reads a symbol, with the place where it begins.
#[tactic(auto, using(crate::proofs::Steps::placed_got, crate::proofs::Steps::placed_refuses, isle_reading::proofs::Steps::passed))]
pub fn placed(tokens: &mut Tokens<'_>, alloc: Global) -> Result<(Text, usize), Fail>
    ensures { Reads (λ read. read) result read_placed (left tokens.old) (left tokens.new) }
{
    let at = tokens.place(0);
    let word = symbol_word(tokens)?;
    Ok((Text::copied(alloc, word)?, at))
}

/// Reads symbols up to a closing parenthesis, which is taken, of at most `most` tokens.
#[tactic(auto, using(isle_reading::proofs::ListSteps::lists))]
pub fn symbols(tokens: &mut Tokens<'_>, alloc: Global, most: usize) -> Result<Vec<Text>, Fail>
    ensures { Reads (λ read. read.items) result (many most read_symbol) (left tokens.old)
        (left tokens.new) }
{
    let mut symbols = Vec::new(alloc);
    for _ in 0..most {
        match tokens.closes() {
            Some(_) => {
                tokens.skip();
                return Ok(symbols);
            }
            None => symbols.push(symbol(tokens, alloc)?)?,
        }
    }
    Err(Fail::At(tokens.len()))
}

// A number of three digits that is next.
#[tactic(auto, using(isle_reading::proofs::Steps::next))]
fn next_count(tokens: &Tokens<'_>) -> Option<usize>
    ensures { result ≡ next_word count_of (left tokens.now) }
{
    count_of(tokens.word()?)
}

/// Reads a number of one to three digits.
#[tactic(auto, using(isle_reading::proofs::Steps::words), unfolding(crate::specs::Reading::read_count))]
pub fn count(tokens: &mut Tokens<'_>) -> Result<usize, Fail>
    ensures { Reads (λ count. count) result read_count (left tokens.old) (left tokens.new) }
{
    match next_count(tokens) {
        Some(count) => {
            tokens.skip();
            Ok(count)
        }
        None => Err(Fail::At(tokens.len())),
    }
}

// Whether a word is next.
#[tactic(auto, using(isle_reading::proofs::Steps::next))]
fn next_key(tokens: &Tokens<'_>, key: &str) -> Option<bool>
    ensures { result ≡ next_word (flag_of key.now) (left tokens.now) }
{
    if tokens.word()? == key {
        Some(true)
    } else {
        None
    }
}

/// Reads a word.
#[tactic(auto, using(isle_reading::proofs::Steps::words), unfolding(crate::specs::Reading::read_key))]
pub fn keyword(tokens: &mut Tokens<'_>, key: &str) -> Result<bool, Fail>
    ensures { Reads (λ there. there) result (read_key key.now) (left tokens.old)
        (left tokens.new) }
{
    match next_key(tokens, key) {
        Some(there) => {
            tokens.skip();
            Ok(there)
        }
        None => Err(Fail::At(tokens.len())),
    }
}

/// Reads a word that may be there, and tells whether it is.
#[tactic(auto, using(isle_reading::proofs::Steps::optionals), unfolding(crate::specs::Reading::read_flag))]
pub fn flag(tokens: &mut Tokens<'_>, key: &str) -> Result<bool, Fail>
    ensures { Reads (λ there. there) result (read_flag key.now) (left tokens.old)
        (left tokens.new) }
{
    if tokens.len() == 0 {
        return Err(Fail::At(tokens.len()));
    }
    match next_key(tokens, key) {
        Some(there) => {
            tokens.skip();
            Ok(there)
        }
        None => Ok(false),
    }
}

/// Reads a number of three digits in parentheses, behind a word.
#[tactic(auto, using(isle_reading::proofs::Steps::chain), unfolding(crate::specs::Reading::read_counted))]
pub fn counted(tokens: &mut Tokens<'_>, key: &str) -> Result<usize, Fail>
    ensures { Reads (λ count. count) result (read_counted key.now) (left tokens.old)
        (left tokens.new) }
{
    tokens.open()?;
    keyword(tokens, key)?;
    let count = count(tokens)?;
    tokens.close()?;
    Ok(count)
}
