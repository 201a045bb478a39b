ghost use Rattle.std.specs.Prelude.{◌≡◌, ◌≤◌, ◌<◌, ℕ, length, get_or};
ghost use Rattle.isle_lexer.specs.Token.{Between, InWord, AfterOpen, begun, coming, in_front};
ghost use Rattle.isle_lexer.specs.LexerViews.{IsPiece, IsFirst};

use crate::bytes::{Begun, begun_by, is_word_byte};
use crate::comments::{comment_end, line_end};
use crate::token::Tok;

/// What stands at a place, if nothing was begun in front of it.
#[derive(Clone, Copy, Debug, PartialEq, Eq)]
pub enum Piece {
    /// Blanks or a comment, up to this place.
    Skip(usize),
    /// A token up to this place.
    Token(usize),
    /// A comment that never ends.
    Unclosed,
}

/// What comes first after a place.
#[derive(Clone, Copy, Debug, PartialEq, Eq)]
pub enum Found {
    Token(Tok),
    /// A comment that never ends begins here.
    Unclosed(usize),
    End,
}

// The place after a word, of which this place is a part or the end.
fn word_end(text: &[u8], at: usize) -> usize
    requires { at ≤ length text.now }
    ensures word { (from : ℕ)
        → coming text.now (InWord from) at
        ≡ in_front (record { from = from; to = result }) (coming text.now Between result) }
    ensures forward { at ≤ result }
    ensures within { result ≤ length text.now }
{
    for place in at..text.len() {
        if !is_word_byte(text[place]) {
            return place;
        }
    }
    text.len()
}

// What stands at an open parenthesis.
fn opened(text: &[u8], at: usize) -> Piece
    requires inside { at < length text.now }
    requires opens { begun at (get_or text.now at 0) ≡ AfterOpen at }
    ensures { IsPiece text.now at result }
{
    if at + 1 >= text.len() || text[at + 1] != b';' {
        return Piece::Token(at + 1);
    }
    match comment_end(text, at + 2) {
        Some(to) => Piece::Skip(to),
        None => Piece::Unclosed,
    }
}

// What stands at a place.
fn piece_at(text: &[u8], at: usize) -> Piece
    requires { at < length text.now }
    ensures { IsPiece text.now at result }
{
    match begun_by(text[at]) {
        Begun::Nothing => Piece::Skip(at + 1),
        Begun::Line => Piece::Skip(line_end(text, at + 1)),
        Begun::Open => opened(text, at),
        Begun::Single => Piece::Token(at + 1),
        Begun::Word => Piece::Token(word_end(text, at + 1)),
    }
}

/// Returns what comes first after a place at which nothing was begun.
pub fn find(text: &[u8], from: usize) -> Found
    ensures { IsFirst text.now from result }
{
    let mut at = from;
    while at < text.len() {
        match piece_at(text, at) {
            Piece::Skip(to) => at = to,
            Piece::Token(to) => return Found::Token(Tok { from: at, to }),
            Piece::Unclosed => return Found::Unclosed(at),
        }
    }
    Found::End
}
