//! In which order the tests of a rule are made that rules may share: first of what most rules test, and of a part after
//! what it is part of.

ghost use Rattle.std.specs.Prelude.{◌≡◌, ◌≤◌, IfOk, Contains};
ghost use Rattle.isle_core.specs.declared.BindingId.{BindingId as Id};
ghost use Rattle.isle_blocks.specs.Turns as Turns;

use crate::ways::Parted;
use isle_core::{Binding, BindingId};
use std::alloc::{AllocError, Global};

// Returns the turn of a binding, the first one if none is known.
fn turn_at(turns: &[usize], place: usize) -> usize
    ensures { result ≡ Turns.turn_at turns.now place }
{
    match turns.get(place) {
        Some(turn) => *turn,
        None => 0,
    }
}

/// Returns where a binding stands among all: by its turn, and those of one turn by their numbers.
pub fn rank(turns: &[usize], binding: BindingId) -> u128
    ensures { result ≡ Turns.rank turns.now binding }
{
    let turn = turn_at(turns, binding.index());
    turn as u128 * 18_446_744_073_709_551_616 + binding.index() as u128
}

// Returns a turn that is neither before this one nor before those of what a binding is made over.
fn turn_after(turns: &[usize], own: usize, parts: &[BindingId]) -> usize
    ensures { (part : Id) → Contains parts.now part
        → Turns.turn_at turns.now part.0 ≤ result }
{
    let mut turn = own;
    for part in parts {
        turn = turn.max(turn_at(turns, part.index()));
    }
    turn
}

// Counts how many early tests of ways are of each of so many bindings.
fn tested_of(alloc: Global, count: usize, ways: &[Parted<'_>]) -> Result<Vec<usize>, AllocError> {
    let mut tested: Vec<usize> = vec![in alloc; 0; count]?;
    for way in ways {
        for (source, _) in way.early.as_slice() {
            if let Some(times) = tested.get_mut(source.index()) {
                *times = times.saturating_add(1);
            }
        }
    }
    Ok(tested)
}

// Returns the turn of a binding that so many of all ways test: the more the earlier. One that none tests has the first,
// so that it keeps back nothing made over it.
fn own_turn(tested: usize, ways: usize) -> usize {
    if tested == 0 {
        0
    } else {
        ways.saturating_sub(tested)
    }
}

/// Gives each binding its turn: the more ways test it early the earlier, but no earlier than what it is made over. Of a
/// way that stands alone no turn is told, since all are the first. The only error is want of memory.
pub fn turns_of(
    alloc: Global,
    bindings: &[Binding],
    ways: &[Parted<'_>],
) -> Result<Vec<usize>, AllocError>
    ensures { IfOk result (λ turns. Turns.TurnsRise bindings.now turns.items) }
{
    let mut turns = Vec::new(alloc);
    if ways.len() < 2 {
        return Ok(turns);
    }
    let tested = tested_of(alloc, bindings.len(), ways)?;
    for binding in bindings {
        let own = own_turn(turn_at(tested.as_slice(), turns.len()), ways.len());
        let turn = turn_after(turns.as_slice(), own, binding.parts());
        turns.push(turn)?;
    }
    Ok(turns)
}
