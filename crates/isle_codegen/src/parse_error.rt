//! The error of a text that goes wrong.

ghost use Rattle.std.specs.Prelude.{◌≡◌, IfOk};
ghost use Rattle.isle_codegen.specs.Errors.{IsParseError, TellsParseError};

use crate::compile_error::CompileError;
use isle_core::{Error, Files, List, OutOfMemory, Pos, Span, Text};
use isle_syntax::{Expected, Mismatch};
use std::alloc::Global;

/// How many bytes of a token are shown.
const MOST_SHOWN: usize = 40;

// What may stand there, in words.
fn expected_words(expected: Expected) -> &'static str {
    match expected {
        Expected::Open => "'('",
        Expected::Close => "')'",
        Expected::Head => "the first word of a definition",
        Expected::Definition => "a definition",
        Expected::Name => "a name",
        Expected::Type => "a type",
        Expected::Body => "(primitive ..), (enum ..) or (struct ..)",
        Expected::Field => "a field",
        Expected::Variant => "a variant",
        Expected::Pattern => "a pattern",
        Expected::Expression => "an expression",
        Expected::Constant => "a name behind '$'",
        Expected::Keyword => "constructor, extractor or const",
        Expected::Shallower => "no more than 256 '(' and '@' open",
        Expected::CommentEnd => "the end of the comment",
        Expected::Other => "something else",
    }
}

// The bytes of the token that was met, as far as they are text.
fn token_at(files: &Files, at: Pos, to: Pos) -> Option<&str> {
    let text = files.file_texts.as_slice().get(at.file)?.as_str();
    let (front, _) = text.split_at_checked(to.offset)?;
    let (_, token) = front.split_at_checked(at.offset)?;
    if token.is_empty() {
        return None;
    }
    let (shown, _) = token.split_at_checked(token.floor_char_boundary(MOST_SHOWN))?;
    Some(shown)
}

/// What some editors put before a text, and no one sees.
const BYTE_ORDER_MARK: char = '\u{FEFF}';

// Adds a token in quotes, each byte below 32 as `?`, and a byte order mark by its name.
fn push_token(out: &mut String, token: &str) -> Result<(), OutOfMemory> {
    out.push('\'')?;
    for letter in token.chars() {
        match letter {
            BYTE_ORDER_MARK => out.push_str("<byte order mark>")?,
            letter => out.push(if letter < ' ' { '?' } else { letter })?,
        }
    }
    out.push('\'')?;
    Ok(())
}

// What may stand at the place, and what was met there.
fn words_of(
    alloc: Global,
    files: &Files,
    at: Pos,
    mismatch: Mismatch,
) -> Result<Text, OutOfMemory> {
    let mut words = String::from_str(alloc, "expected ")?;
    words.push_str(expected_words(mismatch.expected))?;
    words.push_str(", found ")?;
    match token_at(files, at, mismatch.to) {
        Some(token) => push_token(&mut words, token)?,
        None => words.push_str("the end of the file")?,
    }
    Ok(Text::new(words))
}

// The error at that place.
fn error_at(
    alloc: Global,
    files: &Files,
    at: Pos,
    mismatch: Mismatch,
) -> Result<List<Error>, OutOfMemory>
    ensures { IfOk result (λ errors. IsParseError at errors) }
{
    let msg = words_of(alloc, files, at, mismatch)?;
    let span = Span::new_single(at);
    let error = Error::ParseError { msg, span };
    Ok(List::new(vec![in alloc; error]?))
}

/// Gives the error of files one of which goes wrong at that place; or want of memory.
pub fn parse_error(alloc: Global, files: &Files, at: Pos, mismatch: Mismatch) -> CompileError
    ensures { TellsParseError result at }
{
    match error_at(alloc, files, at, mismatch) {
        Ok(errors) => CompileError::Errors(errors),
        Err(_) => CompileError::Memory,
    }
}
