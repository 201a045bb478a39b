//! Rule texts: the definitions that they spell.
#![tactic(auto)]

mod body;
mod definition;
mod externs;
mod flags;
mod parser;
mod passed;

pub use isle_reading::Expected;
pub use parser::{Mismatch, ParseFail, parse, parse_text};
