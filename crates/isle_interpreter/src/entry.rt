//! Answers as entries.

ghost use Rattle.std.specs.Prelude.{◌≡◌, ◌+◌, ◌<◌, ◌↔◌, length, IsTrue, IfOk, Some, slice_get};
ghost use Rattle.isle_core.specs.ValueViews.{pure_answers, turn_answers, meaning};
ghost use Rattle.isle_interpreter.specs.Entries.{Cases, Turns, entries, EntryFits};
ghost use Rattle.isle_interpreter.specs.EntryViews.{entry};
ghost use Rattle.isle_places.specs.SignatureViews.{signature};

use crate::values::{gives, takes};
use isle_core::{Answers, PureAnswers, Text, TurnAnswers, Value};
use isle_places::{Signature, Types};
use std::alloc::{AllocError, Global};

/// A constant's value, the cases of a callee, or its turns.
#[derive(Clone, Copy)]
pub enum Entry<'a> {
    Constant(&'a (Text, Value)),
    Cases(&'a PureAnswers),
    Turns(&'a TurnAnswers),
}

/// Returns the entry of this number.
pub fn entry_at(answers: &Answers, index: usize) -> Entry<'_>
    requires { index
        < length answers.now.consts + length answers.now.pure + length answers.now.turns }
    ensures { slice_get (entries (meaning answers.now)) index ≡ Some (entry result) }
{
    let consts = answers.consts.as_slice();
    let pure = answers.pure.as_slice();
    if index < consts.len() {
        return Entry::Constant(&consts[index]);
    }
    let after_consts = index - consts.len();
    if after_consts < pure.len() {
        return Entry::Cases(&pure[after_consts]);
    }
    Entry::Turns(&answers.turns.as_slice()[after_consts - pure.len()])
}

// Whether the cases of a callee fit its signature.
fn cases_fit(
    alloc: Global,
    types: &Types<'_>,
    given: &PureAnswers,
    of: &Signature<'_>,
) -> Result<bool, AllocError>
    ensures { IfOk result (λ fit.
        IsTrue fit ↔ EntryFits types.now (Cases (pure_answers given.now)) (signature of.now)) }
{
    for case in given.cases.as_slice() {
        if !takes(alloc, types, of, case.0.as_slice())? {
            return Ok(false);
        }
        if !gives(alloc, types, of, &case.1)? {
            return Ok(false);
        }
    }
    gives(alloc, types, of, &given.rest)
}

// Whether the turns of a callee fit its signature.
fn turns_fit(
    alloc: Global,
    types: &Types<'_>,
    given: &TurnAnswers,
    of: &Signature<'_>,
) -> Result<bool, AllocError>
    ensures { IfOk result (λ fit.
        IsTrue fit ↔ EntryFits types.now (Turns (turn_answers given.now)) (signature of.now)) }
{
    for turn in given.turns.as_slice() {
        if !gives(alloc, types, of, turn)? {
            return Ok(false);
        }
    }
    gives(alloc, types, of, &given.rest)
}

impl<'a> Entry<'a> {
    /// Tells whether the answers of the entry fit the signature of what it answers for. The only error is want of
    /// memory.
    pub fn fits(
        &self,
        alloc: Global,
        types: &Types<'_>,
        of: &Signature<'_>,
    ) -> Result<bool, AllocError>
        ensures { IfOk result (λ fit.
            IsTrue fit ↔ EntryFits types.now (entry self.now) (signature of.now)) }
    {
        match self {
            Entry::Constant(_) => Ok(false),
            Entry::Cases(given) => cases_fit(alloc, types, given, of),
            Entry::Turns(given) => turns_fit(alloc, types, given, of),
        }
    }
}
