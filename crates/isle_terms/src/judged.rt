//! Which rows the parts of a rule or of a template break.

/// Which rows the parts of a rule or of a template that were met so far break, and whether one is a variable of a
/// pattern that was not bound before; and of which terms, by their numbers, a pattern that uses them is `multi`.
#[derive(Clone, Copy)]
pub struct Judged<'m> {
    pub multis: &'m [bool],
    pub untaken: bool,
    pub mistaken: bool,
    pub misplaced: bool,
    pub undeclared: bool,
    pub met_otherwise: bool,
    pub multi_taken: bool,
    pub unknown: bool,
    pub mistyped: bool,
    pub partial: bool,
    pub impure: bool,
    pub multi: bool,
    pub unbound: bool,
}
