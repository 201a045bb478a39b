//! What is wrong with a part of a rule or of a template, for the words of a fault alone.

use crate::part::Part;
use isle_types::Row;

/// What is wrong with a part.
#[derive(Clone, Copy, PartialEq, Eq)]
pub enum Flaw {
    /// A variable of a template is no parameter.
    NoParameter,
    /// A parameter does not stand in its template.
    LeftOut,
    /// The head of a rule has another number of patterns than its term has arguments.
    Head,
    /// A term in a pattern is not there, has another number of arguments, or has no extractor.
    Untaken,
    /// A term or a constant in a pattern, or a parameter, has another type than the one expected.
    Mistaken,
    /// An integer or a truth stands where another type is expected.
    Misplaced,
    /// A constant is not declared.
    Undeclared,
    /// A variable that is met again was bound at another type.
    MetOtherwise,
    /// A variable is not bound, or a term that is called is not there, has another number of arguments, or has no
    /// constructor.
    Unknown,
    /// A condition calls a term that is not `pure`.
    InCondition,
    /// An expression has another type than the one expected, or a type is not declared.
    Mistyped,
    /// A partial term is called in one that is not `partial`.
    Partial,
    /// A term that is not `pure` is called in a `pure` one.
    Impure,
    /// A `multi` term is called in a rule of one that is not `multi`.
    Multi,
    /// A pattern uses a `multi` term, by itself or through templates, in a rule of one that is not `multi`.
    MultiTaken,
}

/// A part that breaks a row, and what is wrong with it.
#[derive(Clone, Copy)]
pub struct Culprit<'b, 'd> {
    pub flaw: Flaw,
    pub part: Part<'b, 'd>,
}

/// A row that is broken, and the part that breaks it, if it is not the whole extractor or rule.
#[derive(Clone, Copy)]
pub struct Breach<'b, 'd> {
    pub row: Row,
    pub culprit: Option<Culprit<'b, 'd>>,
}
