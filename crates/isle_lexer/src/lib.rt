//! Texts as tokens, and the words among them: integers and symbols.
#![tactic(auto)]

mod bytes;
mod comments;
mod counting;
mod finding;
mod integer;
mod lexer;
mod token;
mod word;

pub use counting::counted;
pub use integer::{Signed, int_of, signed_of};
pub use lexer::Lexer;
pub use token::{Tok, Token, token_from};
pub use word::{Kind, is_flag, is_let, is_name, kind_of};
