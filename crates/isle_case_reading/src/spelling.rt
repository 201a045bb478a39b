//! Texts as they are spelled in cases, and words in quotes.

use crate::slip::Slip;
use std::alloc::Global;

/// Returns the bytes of a text, its spellings with backslashes resolved.
pub fn spelt(alloc: Global, text: &str) -> Result<Vec<u8>, Slip> {
    let mut bytes = Vec::new(alloc);
    for (place, piece) in text.split('\\').enumerate() {
        if place == 0 {
            bytes.extend_from_slice(piece.as_bytes())?;
        } else {
            push_spelt(alloc, &mut bytes, piece)?;
        }
    }
    Ok(bytes)
}

/// Returns the text that is spelled.
pub fn text_spelt(alloc: Global, text: &str) -> Result<String, Slip> {
    match String::from_utf8(spelt(alloc, text)?) {
        Ok(text) => Ok(text),
        Err(_) => Err(Slip::NotText),
    }
}

// Appends what stands after a backslash.
fn push_spelt(alloc: Global, bytes: &mut Vec<u8>, piece: &str) -> Result<(), Slip> {
    match piece.as_bytes() {
        [b'n', rest @ ..] => push_two(bytes, b'\n', rest),
        [b't', rest @ ..] => push_two(bytes, b'\t', rest),
        [b'r', rest @ ..] => push_two(bytes, b'\r', rest),
        [b'x', high, low, rest @ ..] => push_two(
            bytes,
            hex(*high)?.wrapping_mul(16) | hex(*low)?,
            rest,
        ),
        [b'0'..=b'9', ..] => push_often(alloc, bytes, piece),
        _ => Err(Slip::Escape),
    }
}

// Appends a byte and what stands after it.
fn push_two(bytes: &mut Vec<u8>, byte: u8, rest: &[u8]) -> Result<(), Slip> {
    bytes.push(byte)?;
    bytes.extend_from_slice(rest)?;
    Ok(())
}

// The number of a hexadecimal digit.
fn hex(digit: u8) -> Result<u8, Slip> {
    match digit {
        b'0'..=b'9' => Ok(digit.wrapping_sub(b'0')),
        b'a'..=b'f' => Ok(digit.wrapping_sub(b'a' - 10)),
        _ => Err(Slip::Escape),
    }
}

// The number of the first turn, and that after the last one.
fn turns(count: &str) -> Result<(usize, usize), Slip> {
    match count.split_once("..") {
        Some((from, to)) => Ok((number(from)?, number(to)?)),
        None => Ok((0, number(count)?)),
    }
}

// Appends what a `COUNT{..}` or `FROM..TO{..}` repeats, and what stands after it.
fn push_often(alloc: Global, bytes: &mut Vec<u8>, piece: &str) -> Result<(), Slip> {
    let Some((count, behind)) = piece.split_once('{') else {
        return Err(Slip::Escape);
    };
    let Some((inner, rest)) = behind.split_once('}') else {
        return Err(Slip::Escape);
    };
    let (from, to) = turns(count)?;
    match inner.as_bytes() {
        [byte] if *byte != b'#' => {
            let run = vec![in alloc; *byte; to.saturating_sub(from)]?;
            bytes.extend_from_slice(run.as_slice())?;
        }
        _ => push_turns(alloc, bytes, inner, from, to)?,
    }
    bytes.extend_from_slice(rest.as_bytes())?;
    Ok(())
}

// Appends the turns from one number up to another.
fn push_turns(
    alloc: Global,
    bytes: &mut Vec<u8>,
    inner: &str,
    from: usize,
    to: usize,
) -> Result<(), Slip> {
    for turn in from..to {
        push_turn(alloc, bytes, inner, turn)?;
    }
    Ok(())
}

// How far above a turn's number a number is, and what stands after that.
fn above(piece: &[u8]) -> (usize, &[u8]) {
    match piece {
        [b'+', digit @ b'1'..=b'9', rest @ ..] => (usize::from(*digit - b'0'), rest),
        rest => (0, rest),
    }
}

// Appends the number of a turn, or one above it, and what stands after that.
fn push_number(alloc: Global, bytes: &mut Vec<u8>, piece: &[u8], turn: usize) -> Result<(), Slip> {
    let (above, rest) = above(piece);
    let number = turn.saturating_add(above);
    bytes.extend_from_slice(format!(in alloc; "{number}")?.as_bytes())?;
    bytes.extend_from_slice(rest)?;
    Ok(())
}

// Appends one turn: a `#` is its number, and `#+1` to `#+9` a number above it.
fn push_turn(alloc: Global, bytes: &mut Vec<u8>, inner: &str, turn: usize) -> Result<(), Slip> {
    for (place, piece) in inner.split('#').enumerate() {
        if place > 0 {
            push_number(alloc, bytes, piece.as_bytes(), turn)?;
        } else {
            bytes.extend_from_slice(piece.as_bytes())?;
        }
    }
    Ok(())
}

/// Reads a number.
pub fn number(digits: &str) -> Result<usize, Slip> {
    match digits.parse::<usize>() {
        Ok(number) => Ok(number),
        Err(_) => Err(Slip::Number),
    }
}

/// Words as they are read, letter by letter.
#[derive(Drop)]
struct Words {
    alloc: Global,
    all: Vec<String>,
    word: String,
    is_open: bool,
    is_quoted: bool,
}

impl Words {
    // Takes a letter.
    fn take(&mut self, letter: char) -> Result<(), Slip> {
        if letter == '\'' {
            self.is_quoted = !self.is_quoted;
            self.is_open = true;
            return Ok(());
        }
        if letter == ' ' && !self.is_quoted {
            return self.end();
        }
        self.is_open = true;
        self.word.push(letter)?;
        Ok(())
    }

    // Ends the open word.
    fn end(&mut self) -> Result<(), Slip> {
        if self.is_open {
            let word = text_spelt(self.alloc, self.word.as_str())?;
            self.all.push(word)?;
            self.word.clear();
            self.is_open = false;
        }
        Ok(())
    }
}

/// Splits a line into words: blanks stand between them, and a word in single quotes may have some.
pub fn words_of(alloc: Global, line: &str) -> Result<Vec<String>, Slip> {
    let mut words = Words {
        alloc,
        all: Vec::new(alloc),
        word: String::new(alloc),
        is_open: false,
        is_quoted: false,
    };
    for letter in line.chars() {
        words.take(letter)?;
    }
    if words.is_quoted {
        return Err(Slip::Quote);
    }
    words.end()?;
    Ok(words.all)
}
