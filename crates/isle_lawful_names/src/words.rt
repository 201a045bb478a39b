//! The words of the emitted text that names may not be.

ghost use Rattle.std.specs.Prelude.{◌≡◌};
ghost use Rattle.std.specs.List.{list_any};
ghost use Rattle.std.specs.Str.{bytes_eq};
ghost use Rattle.isle_lawful_names.specs.LawfulNames.{type_words, constant_words};

use isle_spelling::is_among;

/// The words that no type may have for a name.
const TYPE_WORDS: [&str; 16] = [
    "Context",
    "ContextIter",
    "IntoContextIter",
    "Length",
    "ContextIterWrapper",
    "ConstructorVec",
    "PhantomData",
    "Option",
    "Some",
    "None",
    "Default",
    "Extend",
    "Iterator",
    "IntoIterator",
    "From",
    "Vec",
];

/// Those that no constant may have.
const CONSTANT_WORDS: [&str; 4] = ["ctx", "returns", "Some", "None"];

/// Tells whether no type may have the name.
pub fn is_type_word(name: &str) -> bool
    ensures { result ≡ list_any (bytes_eq name.now) type_words }
{
    is_among(name, &TYPE_WORDS)
}

/// Tells whether no constant may have the name.
pub fn is_constant_word(name: &str) -> bool
    ensures { result ≡ list_any (bytes_eq name.now) constant_words }
{
    is_among(name, &CONSTANT_WORDS)
}
