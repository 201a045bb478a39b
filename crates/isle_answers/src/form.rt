use isle_core::{Callee, List, Text};
use isle_values::Written;

/// A result as it is written: one value, or a tuple of none or several.
#[derive(Debug, Drop)]
pub enum ResultForm {
    One(Written),
    Tuple(List<Written>),
}

/// What a call answers, as it is written.
#[derive(Debug, Drop)]
pub enum AnswerForm {
    Plain(ResultForm),
    Some(ResultForm),
    Nothing,
    List(List<ResultForm>),
}

/// A form of an answers file, with the place of its opening parenthesis.
#[derive(Debug, Drop)]
pub enum Form {
    /// The length of the returns list at entry.
    Held {
        count: usize,
        at: usize,
    },
    Const {
        name: Text,
        value: Written,
        at: usize,
    },
    /// The answers of an extractor or a pure term: cases by their arguments, and the rest.
    Answers {
        callee: Callee,
        cases: List<(List<Written>, AnswerForm)>,
        rest: AnswerForm,
        at: usize,
    },
    /// The answers of an impure term, call by call, and the rest.
    Turns {
        callee: Callee,
        turns: List<AnswerForm>,
        rest: AnswerForm,
        at: usize,
    },
}
