//! The answers of all callees.

ghost use Rattle.std.specs.Prelude.{◌≡◌, [], drop, map, option_map, OnOk, IfOk};
ghost use Rattle.isle_core.specs.ValueViews.{pure_answers, turn_answers};
ghost use Rattle.isle_running.specs.Sources.{source, after_call, at_callee, PutsAt, Puts, TakesAt, Takes, FindsSources};

use crate::source::Source;
use isle_core::{Answer, Answers, Callee};
use std::alloc::{AllocError, Global};
use std::collections::BTreeMap;

/// The answers of external and of internal callees, by their names.
#[derive(Drop)]
pub struct Sources<'a> {
    external: BTreeMap<&'a str, Source<'a>>,
    internal: BTreeMap<&'a str, Source<'a>>,
}

// All turns but the first.
fn but_first<'a>(turns: &'a [Answer]) -> &'a [Answer]
    ensures { result.now ≡ drop 1 turns.now }
{
    match turns {
        [] => turns,
        [_, left @ ..] => left,
    }
}

// The answers after a call.
fn after_call<'a>(given: Source<'a>) -> Source<'a>
    ensures { source result ≡ after_call (source given.entry) }
{
    match given {
        Source::Cases(answers) => Source::Cases(answers),
        Source::Turns(turns, rest) => Source::Turns(but_first(turns), rest),
    }
}

// Sets the answers at a name.
fn put_at<'a>(
    found: &mut BTreeMap<&'a str, Source<'a>>,
    name: &'a str,
    given: Source<'a>,
) -> Result<(), AllocError>
    ensures { OnOk result (PutsAt found.old found.new name.now given.entry) }
{
    found.insert(name, given)?;
    Ok(())
}

// Takes a turn at a name.
fn take_at<'a>(found: &mut BTreeMap<&'a str, Source<'a>>, name: &str)
    ensures { TakesAt found.old found.new name.now }
{
    match found.get_mut(name) {
        Some(source) => *source = after_call(*source),
        None => {}
    }
}

impl<'a> Sources<'a> {
    // No answers.
    fn new(alloc: Global) -> Sources<'a>
        ensures { FindsSources [] [] [] result }
    {
        Sources {
            external: BTreeMap::new(alloc),
            internal: BTreeMap::new(alloc),
        }
    }

    // Sets the answers of a callee.
    fn insert(&mut self, callee: &'a Callee, given: Source<'a>) -> Result<(), AllocError>
        ensures { OnOk result (Puts self.old self.new callee.now given.entry) }
    {
        match callee {
            Callee::External(name) => put_at(&mut self.external, name.as_str(), given),
            Callee::Internal(term) => put_at(&mut self.internal, term.as_str(), given),
        }
    }

    /// Returns the answers of a callee, where it has any.
    pub fn get(&self, callee: &Callee) -> Option<Source<'a>>
        ensures { option_map source result ≡ at_callee self.now callee.now }
    {
        match callee {
            Callee::External(name) => self.external.get(name.as_str()).copied(),
            Callee::Internal(term) => self.internal.get(term.as_str()).copied(),
        }
    }

    /// Takes a turn of a callee, where it has turns.
    pub fn take(&mut self, callee: &Callee)
        ensures { Takes self.old self.new callee.now }
    {
        match callee {
            Callee::External(name) => take_at(&mut self.external, name.as_str()),
            Callee::Internal(term) => take_at(&mut self.internal, term.as_str()),
        }
    }
}

/// Finds the first turns of each callee, or else its first cases.
pub fn sources_of<'a>(alloc: Global, answers: &'a Answers) -> Result<Sources<'a>, AllocError>
    ensures { IfOk result (λ s.
        FindsSources (map turn_answers answers.now.turns) (map pure_answers answers.now.pure) []
        s) }
{
    let mut sources = Sources::new(alloc);
    let pure = answers.pure.as_slice();
    for index in (0..pure.len()).rev() {
        let cases = &pure[index];
        sources.insert(&cases.callee, Source::Cases(cases))?;
    }
    let impure = answers.turns.as_slice();
    for index in (0..impure.len()).rev() {
        let turns = &impure[index];
        sources.insert(
            &turns.callee,
            Source::Turns(turns.turns.as_slice(), &turns.rest),
        )?;
    }
    Ok(sources)
}
