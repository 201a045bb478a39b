//! The words of rows, as cases write them.

use crate::slip::Slip;
use crate::spelling::number;
use isle_core::Text;
use std::alloc::{AllocError, Global};

/// Words and parentheses, and how many of them are read.
#[derive(Drop)]
pub struct Words<'t> {
    pub alloc: Global,
    words: Vec<&'t str>,
    next: usize,
}

impl<'t> Words<'t> {
    /// Returns the next word, or none if there is no more.
    pub fn peek(&self) -> &'t str {
        match self.words.get(self.next) {
            Some(word) => *word,
            None => "",
        }
    }

    /// Returns the word after the next one, if there is one.
    pub fn second(&self) -> Option<&'t str> {
        match self.words.get(self.next.saturating_add(1)) {
            Some(word) => Some(*word),
            None => None,
        }
    }

    /// Returns how many words there are, those that were taken among them.
    pub fn len(&self) -> usize {
        self.words.len()
    }

    /// Takes the next word.
    pub fn take(&mut self) -> &'t str {
        let word = self.peek();
        self.next = self.next.saturating_add(1);
        word
    }

    /// Takes the next word, if it is this one.
    pub fn takes(&mut self, word: &str) -> bool {
        let is = self.peek() == word;
        if is {
            self.next = self.next.saturating_add(1);
        }
        is
    }

    /// Takes this word.
    pub fn expect(&mut self, word: &str) -> Result<(), Slip> {
        if self.takes(word) {
            Ok(())
        } else {
            Err(Slip::Table)
        }
    }

    /// Takes a word as a text; `''` is an empty one.
    pub fn text(&mut self) -> Result<Text, Slip> {
        let word = self.take();
        let text = if word == "''" { "" } else { word };
        Ok(Text::copied(self.alloc, text)?)
    }

    /// Takes the number of a list that begins with this word.
    pub fn counted(&mut self, word: &str) -> Result<usize, Slip> {
        self.expect("(")?;
        self.expect(word)?;
        let count = number(self.take())?;
        self.expect(")")?;
        Ok(count)
    }
}

// Appends a piece between blanks: its parentheses, and what they stand around.
fn push_piece<'t>(words: &mut Vec<&'t str>, piece: &'t str) -> Result<(), AllocError> {
    let closed = piece.trim_start_matches('(');
    for _ in closed.len()..piece.len() {
        words.push("(")?;
    }
    let word = closed.trim_end_matches(')');
    if !word.is_empty() {
        words.push(word)?;
    }
    for _ in word.len()..closed.len() {
        words.push(")")?;
    }
    Ok(())
}

/// Returns the words of a text.
pub fn row_words(alloc: Global, text: &str) -> Result<Words<'_>, Slip> {
    let mut words = Vec::new(alloc);
    for piece in text.split_whitespace() {
        push_piece(&mut words, piece)?;
    }
    Ok(Words {
        alloc,
        words,
        next: 0,
    })
}
