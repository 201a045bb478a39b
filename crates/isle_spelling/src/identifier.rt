//! The names that Rust takes for an item.

ghost use Rattle.std.specs.Prelude.{◌≡◌, ◌↔◌, ℕ, List, map, IsTrue};
ghost use denote.Ref.{Bor};
ghost use Rattle.std.specs.List.{AllByRecursion, list_any};
ghost use Rattle.std.specs.Str.{bytes_eq};
ghost use Rattle.isle_spelling.specs.Identifier.{used_words, kept_words, is_begin, begins, IsIdentifier};

use crate::names::are_word_bytes;
use isle_core::Text;

// A letter or _.
fn is_begin(byte: u8) -> bool
    ensures { result ≡ is_begin byte }
{
    byte.is_ascii_alphabetic() || byte == b'_'
}

// Whether the first byte is one.
fn begins(bytes: &[u8]) -> bool
    ensures { result ≡ begins bytes.now }
{
    match bytes {
        [] => false,
        [first, ..] => is_begin(*first),
    }
}

/// Tells whether the name is among the words.
pub fn is_among(name: &str, words: &[&str]) -> bool
    ensures { result
        ≡ list_any (bytes_eq name.now) (map (λ (word : Bor (List ℕ)). word.now) words.now) }
{
    for word in words {
        if name == *word {
            return true;
        }
    }
    false
}

// Whether Rust uses the word: it is compared with those of its length.
fn is_used(name: &str) -> bool
    ensures { result ≡ list_any (bytes_eq name.now) used_words }
{
    match name.len() {
        2 => is_among(name, &["as", "fn", "if", "in"]),
        3 => is_among(
            name,
            &["dyn", "for", "let", "mod", "mut", "pub", "ref", "use"],
        ),
        4 => is_among(
            name,
            &[
                "else", "enum", "impl", "loop", "move", "self", "Self", "true", "type",
            ],
        ),
        5 => is_among(
            name,
            &[
                "async", "await", "break", "const", "crate", "false", "match", "super", "trait",
                "where", "while",
            ],
        ),
        6 => is_among(name, &["extern", "return", "static", "struct", "unsafe"]),
        8 => is_among(name, &["continue"]),
        _ => false,
    }
}

// Whether Rust keeps the word for later, or takes it for no name: it is compared with those of its length.
fn is_kept(name: &str) -> bool
    ensures { result ≡ list_any (bytes_eq name.now) kept_words }
{
    match name.len() {
        1 => is_among(name, &["_"]),
        2 => is_among(name, &["do"]),
        3 => is_among(name, &["box", "try"]),
        4 => is_among(name, &["priv"]),
        5 => is_among(name, &["final", "macro", "yield"]),
        6 => is_among(name, &["become", "typeof"]),
        7 => is_among(name, &["unsized", "virtual"]),
        8 => is_among(name, &["abstract", "override"]),
        _ => false,
    }
}

/// Tells whether an item may have the name.
pub fn is_identifier(name: &str) -> bool
    ensures { IsTrue result ↔ IsIdentifier name.now }
{
    if !begins(name.as_bytes()) {
        return false;
    }
    if !are_word_bytes(name.as_bytes()) {
        return false;
    }
    if is_used(name) {
        return false;
    }
    !is_kept(name)
}

/// Tells whether items may have all the names.
pub fn are_identifiers(names: &[Text]) -> bool
    ensures { IsTrue result ↔ AllByRecursion IsIdentifier names.now }
{
    for name in names {
        if !is_identifier(name.as_str()) {
            return false;
        }
    }
    true
}
