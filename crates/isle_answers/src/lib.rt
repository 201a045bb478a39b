//! Answers files: what calls of a run answer, as users write it.
#![tactic(auto)]

mod answer;
mod cases;
mod form;
mod reading;
mod result;
mod texts;
mod turns;
mod words;

pub use form::{AnswerForm, Form, ResultForm};
pub use texts::{AnswersFail, forms};
