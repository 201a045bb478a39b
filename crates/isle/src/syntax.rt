//! Rule texts: `Lexer` gives their tokens, and `parse` the definitions that they spell, or the place where they go
//! wrong. What a text spells stands in `docs/LANGUAGE.md`.

pub use isle_ast::{AstBody, AstExpr, AstFields, AstIfLet, AstLet, AstPattern, AstVariant, Def};
pub use isle_lexer::{Lexer, Tok};
pub use isle_syntax::{Expected, Mismatch, ParseFail, parse, parse_text};
