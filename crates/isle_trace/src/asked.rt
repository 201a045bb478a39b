//! What a run is asked for.

use isle_values::Written;

/// The name of a term, the values that its function takes, and the text of the answers.
#[derive(Clone, Copy)]
pub struct Asked<'a> {
    pub term: &'a str,
    pub given: &'a [Written],
    pub answers: &'a str,
}
