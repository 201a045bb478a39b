//! What is kept of a template.

ghost use Rattle.std.specs.Prelude.{◌≡◌, ◌≤◌};
ghost use Rattle.isle_templates.specs.Occurrences.{times_kept};

use isle_core::Pattern;

/// A template, with what is told of it once no other is in it.
#[derive(Drop)]
pub struct Kept {
    /// The template as it is written, or with those that it uses put in.
    pub pattern: Pattern,
    /// Templates that use it have higher ranks.
    pub rank: usize,
    /// The templates that the pattern uses have lower ranks than this.
    pub uses: usize,
    /// How many levels of templates are put in where the pattern is used.
    pub levels: usize,
    /// How many nodes there are where a pattern of one node stands for each parameter.
    pub nodes: usize,
    /// How often each parameter stands there, by its number. One of a number beyond these stands nowhere.
    pub times: Vec<usize>,
    pub ghost lower: { uses ≤ rank },
}

/// What stands for a term.
#[derive(Drop)]
pub enum Template {
    /// The term itself.
    Absent,
    Present(Kept),
}

impl Kept {
    /// Returns how often a parameter stands there.
    pub fn times(&self, parameter: usize) -> usize
        ensures { result ≡ times_kept self.now.times.items parameter }
    {
        self.times.get(parameter).copied().unwrap_or(0)
    }
}
