ghost use Rattle.std.specs.Prelude.{◌≡◌};
ghost use Rattle.isle_lexer.specs.Word.{kind, symbol_kind, names, is_flag, is_let};
ghost use Rattle.isle_lexer.specs.WordViews.{kind_seen};

use crate::integer::int_of;

/// What a word is: an integer, or a symbol of one of four kinds.
#[derive(Clone, Copy, Debug, PartialEq, Eq)]
pub enum Kind {
    Number(i128),
    /// It begins as an integer does, and is none.
    Malformed,
    Truth(bool),
    /// A `$` and what follows it.
    Dollar,
    Underscore,
    Plain,
}

// What a symbol without `$` is.
fn symbol_kind(word: &str) -> Kind
    ensures { kind_seen word.now result ≡ symbol_kind word.now }
{
    match word {
        "_" => Kind::Underscore,
        "true" => Kind::Truth(true),
        "false" => Kind::Truth(false),
        _ => Kind::Plain,
    }
}

/// Returns what a word is.
#[tactic(auto, unfolding(crate::specs::Word::kind))]
pub fn kind_of(word: &str) -> Kind
    ensures { kind_seen word.now result ≡ kind word.now }
{
    let bytes = word.as_bytes();
    if bytes.is_empty() {
        return symbol_kind(word);
    }
    match bytes[0] {
        b'0'..=b'9' | b'-' => match int_of(bytes) {
            Some(value) => Kind::Number(value),
            None => Kind::Malformed,
        },
        b'$' => Kind::Dollar,
        _ => symbol_kind(word),
    }
}

/// Tells whether a word may stand where the grammar has a name.
pub fn is_name(word: &str) -> bool
    ensures { result ≡ names (kind word.now) }
{
    match kind_of(word) {
        Kind::Truth(_) | Kind::Underscore | Kind::Plain => true,
        Kind::Number(_) | Kind::Malformed | Kind::Dollar => false,
    }
}

/// Tells whether a word is a flag where it stands directly after `decl`.
pub fn is_flag(word: &str) -> bool
    ensures { result ≡ is_flag word.now }
{
    matches!(word, "pure" | "multi" | "partial" | "rec")
}

/// Tells whether a word begins another form than a call if a call has its name.
pub fn is_let(word: &str) -> bool
    ensures { result ≡ is_let word.now }
{
    word == "let"
}
