use isle_core::{List, Text};
use isle_lexer::Signed;

/// A value as it is written. Nothing is said of its type.
#[derive(Debug, Drop)]
pub enum Written {
    Bool(bool),
    /// An integer, before any wrapping.
    Number(Signed),
    /// A name, and the values in parentheses with it.
    Made(Text, List<Written>),
}
