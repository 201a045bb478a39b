ghost use Rattle.std.specs.Prelude.{◌≡◌, length};
ghost use Rattle.isle_lexer.specs.Token.{tokens_of, unclosed};

use crate::finding::{Found, find};

/// Returns how many tokens a text has, and where a comment begins that never ends, the outermost one.
pub fn counted(text: &str) -> (usize, Option<usize>)
    ensures count { result.0 ≡ length (tokens_of text.now) }
    ensures unclosed { result.1 ≡ unclosed text.now }
{
    let bytes = text.as_bytes();
    let mut count = 0;
    let mut at = 0;
    loop {
        match find(bytes, at) {
            Found::Token(tok) => {
                count += 1;
                at = tok.to;
            }
            Found::Unclosed(from) => return (count, Some(from)),
            Found::End => return (count, None),
        }
    }
}
