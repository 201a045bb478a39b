ghost use Rattle.std.specs.Prelude.{◌≡◌, ⊤, [], ◌∷◌, IfOk, IfErr, IfSome, Some, None, length};
ghost use Rattle.std.proofs.Props.{props};
ghost use Rattle.isle_lexer.specs.Token.{unclosed, IsClosed};

use crate::counting::counted;
use crate::finding::{Found, find};
use crate::token::Tok;
use isle_core::Pos;
use std::alloc::AllocError;

/// The tokens of a text, one by one. In each value every comment of the text ends.
#[derive(Debug, Drop)]
pub struct Lexer<'a> {
    file: usize,
    text: &'a str,
    /// The place after the tokens that were taken.
    at: usize,
    pub ghost closed: { IsClosed text.now } by { Prim.hlevel props },
}

impl<'a> Clone for Lexer<'a> {
    // a copy has the file, the text and the place
    ghost is_clone = { λ s r. (r.file ≡ s.file) × (r.text ≡ s.text) × (r.at ≡ s.at) };

    ghost is_infallible = { λ _. ⊤ };

    fn clone(&self) -> Result<Lexer<'a>, AllocError> {
        Ok(Lexer {
            file: self.file,
            text: self.text,
            at: self.at,
        })
    }
}

impl<'a> Lexer<'a> {
    ghost use Rattle.isle_lexer.specs.Lexer.{lexer_file, lexer_text, lexer_left, IsUntaken};

    /// Returns the tokens of the text of the file of that number. Err gives the start of a nested comment that never
    /// ends, the outermost one's.
    pub fn new(file: usize, src: &'a str) -> Result<Lexer<'a>, Pos>
        ensures ok { IfOk result (λ lexer.
            IsClosed src.now × IsUntaken lexer × (lexer_file lexer ≡ file)
            × (lexer_text lexer ≡ src.now)) }
        ensures err { IfErr result (λ pos.
            (unclosed src.now ≡ Some pos.offset) × (pos.file ≡ file)) }
    {
        match counted(src).1 {
            Some(offset) => Err(Pos { file, offset }),
            None => Ok(Lexer {
                file,
                text: src,
                at: 0,
            }),
        }
    }

    /// Returns the next token, by the bytes that it takes. None comes exactly if no token is left. It takes no
    /// memory.
    pub fn next_token(&mut self) -> Option<Tok>
        ensures some { IfSome result (λ tok. lexer_left self.old ≡ tok ∷ lexer_left self.new) }
        ensures none { result ≡ None → (lexer_left self.old ≡ []) × (lexer_left self.new ≡ []) }
        ensures file { lexer_file self.new ≡ lexer_file self.old }
        ensures text { lexer_text self.new ≡ lexer_text self.old }
    {
        match find(self.text.as_bytes(), self.at) {
            Found::Token(tok) => {
                self.at = tok.to;
                Some(tok)
            }
            Found::Unclosed(_) | Found::End => None,
        }
    }

    /// Returns the number of the file.
    pub fn file(&self) -> usize
        ensures { result ≡ lexer_file self.now }
    {
        self.file
    }

    /// Returns how many bytes the text has.
    pub fn text_len(&self) -> usize
        ensures { result ≡ length (lexer_text self.now) }
    {
        self.text.len()
    }

    /// Returns the text.
    pub fn text(&self) -> &'a str
        ensures { result.now ≡ lexer_text self.now }
    {
        self.text
    }
}
