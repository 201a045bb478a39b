//! Target text, seen as the tokens that it spells: a printer, numbers and strings.
#![tactic(auto)]

mod comment;
mod numeral;
mod pieces;
mod printer;
mod quote;

pub use comment::push_comment;
pub use numeral::push_numeral;
pub use pieces::{push_around, push_two};
pub use printer::Printer;
