ghost use Rattle.std.specs.Prelude.{◌≡◌, ℕ};
ghost use Rattle.isle_lexer.specs.Token.{is_blank, is_single, is_word_byte, begun};
ghost use Rattle.isle_lexer.specs.LexerViews.{begins};

/// What a byte begins if nothing was begun.
#[derive(Clone, Copy, Debug, PartialEq, Eq)]
pub enum Begun {
    /// A blank begins nothing.
    Nothing,
    /// A `(`, which a `;` makes a comment.
    Open,
    /// Another token of one byte.
    Single,
    /// A comment up to the end of its line.
    Line,
    Word,
}

fn is_blank(byte: u8) -> bool
    ensures { result ≡ is_blank byte }
{
    matches!(byte, b' ' | b'\t' | b'\r' | b'\n')
}

fn is_single(byte: u8) -> bool
    ensures { result ≡ is_single byte }
{
    matches!(byte, b')' | b'@' | b'<' | b'>')
}

/// Tells whether a byte belongs to a word, as every letter does.
pub fn is_word_byte(byte: u8) -> bool
    ensures { result ≡ is_word_byte byte }
{
    byte > b'@' || !(is_blank(byte) || is_single(byte) || byte == b'(' || byte == b';')
}

/// Returns what a byte begins.
pub fn begun_by(byte: u8) -> Begun
    ensures { (at : ℕ) → begun at byte ≡ begins result at }
{
    match byte {
        b'A'.. => Begun::Word,
        b'(' => Begun::Open,
        b';' => Begun::Line,
        _ if is_blank(byte) => Begun::Nothing,
        _ if is_single(byte) => Begun::Single,
        _ => Begun::Word,
    }
}
