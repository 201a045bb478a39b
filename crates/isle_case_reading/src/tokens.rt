//! The tokens of a target text.

use std::alloc::{AllocError, Global};

/// What is open after a byte.
#[derive(Clone, Copy)]
enum State {
    /// No token that goes on.
    Gap,
    Word,
    /// A mark that one more may join.
    Mark(u8),
    Text,
    Escaped,
    Comment,
}

// Whether a byte stands in names and numbers.
fn is_word(byte: u8) -> bool {
    byte.is_ascii_alphanumeric() || byte == b'_' || byte >= 0x80
}

// Whether two marks are one token.
fn joins(first: u8, second: u8) -> bool {
    matches!(
        (first, second),
        (b':', b':')
            | (b'-', b'>')
            | (b'=', b'>')
            | (b'=', b'=')
            | (b'>', b'=')
            | (b'.', b'.')
            | (b'|', b'|')
            | (b'/', b'/')
    )
}

// What is open after a mark.
fn behind_mark(state: State, mark: u8) -> State {
    match state {
        State::Mark(b'/') if mark == b'/' => State::Comment,
        State::Mark(first) if joins(first, mark) => State::Gap,
        _ => State::Mark(mark),
    }
}

// What is open after a byte more.
fn behind(state: State, byte: u8) -> State {
    match (state, byte) {
        (State::Comment, b'\n') => State::Gap,
        (State::Comment, _) => State::Comment,
        (State::Text, b'"') => State::Gap,
        (State::Text, b'\\') => State::Escaped,
        (State::Text | State::Escaped, _) => State::Text,
        (_, b'"') => State::Text,
        (_, byte) if byte.is_ascii_whitespace() => State::Gap,
        (_, byte) if is_word(byte) => State::Word,
        (state, byte) => behind_mark(state, byte),
    }
}

// Whether a byte more belongs to the token that is open.
fn goes_on(state: State, byte: u8) -> bool {
    match state {
        State::Gap => false,
        State::Word => is_word(byte),
        State::Mark(first) => joins(first, byte),
        State::Text | State::Escaped | State::Comment => true,
    }
}

// Whether a byte is of a token.
fn is_kept(state: State, byte: u8) -> bool {
    match state {
        State::Comment => byte != b'\n',
        State::Text | State::Escaped => true,
        State::Gap | State::Word | State::Mark(_) => !byte.is_ascii_whitespace(),
    }
}

/// Returns the tokens of a text, a line feed before each. A comment to the end of its line is one token.
pub fn tokens(alloc: Global, text: &[u8]) -> Result<Vec<u8>, AllocError> {
    let mut tokens = Vec::new(alloc);
    let mut state = State::Gap;
    for byte in text {
        if is_kept(state, *byte) {
            if !goes_on(state, *byte) {
                tokens.push(b'\n')?;
            }
            tokens.push(*byte)?;
        }
        state = behind(state, *byte);
    }
    Ok(tokens)
}
