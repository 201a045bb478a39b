ghost use Rattle.std.specs.Prelude.{◌≡◌};
ghost use Rattle.isle_lexer.specs.Ahead.{ahead, lexemes_from, AreCutsAhead};
ghost use Rattle.isle_lexer.specs.Cuts.{IsCut, AreCuts};
ghost use Rattle.isle_lexer.specs.Lexeme.{lexeme};
ghost use Rattle.isle_lexer.specs.Token.{tokens_from};
ghost use Rattle.isle_lexer.specs.TokenViews.{token_seen};

use crate::finding::{Found, find};

/// A token by the bytes that it takes, from the first up to the one after it.
#[derive(Clone, Copy, Debug, PartialEq, Eq)]
pub struct Tok {
    pub from: usize,
    pub to: usize,
}

/// A token, with the place where it begins.
#[derive(Clone, Copy, Debug)]
pub enum Token<'a> {
    Open(usize),
    Close(usize),
    At(usize),
    Less(usize),
    Greater(usize),
    Word(usize, &'a str),
}

// The token that takes these bytes of a text.
fn token_at(text: &str, from: usize, to: usize) -> Token<'_>
    requires { IsCut text.now from to }
    ensures { token_seen result ≡ lexeme text.now (record { from = from; to = to }) }
{
    match text.as_bytes()[from] {
        b'(' => Token::Open(from),
        b')' => Token::Close(from),
        b'@' => Token::At(from),
        b'<' => Token::Less(from),
        b'>' => Token::Greater(from),
        _ => Token::Word(from, &text[from..to]),
    }
}

/// Returns the first token of a text after a place at which nothing was begun, and the place after it.
pub fn token_from(text: &str, from: usize) -> Option<(Token<'_>, usize)>
    requires { AreCuts text.now (tokens_from text.now from) }
    ensures tokens { ahead text.now result ≡ lexemes_from text.now from }
    ensures cuts { AreCutsAhead text.now result }
{
    match find(text.as_bytes(), from) {
        Found::Token(tok) => Some((token_at(text, tok.from, tok.to), tok.to)),
        Found::Unclosed(_) | Found::End => None,
    }
}
