//! Whether answers are right.

ghost use Rattle.std.specs.Prelude.{◌≡◌, ◌+◌, ◌^◌, ◌<◌, ◌↔◌, List, [], ◌∷◌, ◌++◌, length, IfOk, IfErr, OnOk};
ghost use Rattle.std.specs.Prelude.{IsTrue, Some};
ghost use Rattle.isle_core.specs.Meaning.{Meaning};
ghost use Rattle.isle_core.specs.ValueViews.{meaning};
ghost use Rattle.isle_tree.specs.Program.{Function as FunctionOf};
ghost use Rattle.isle_tree.specs.Views.{function, program};
ghost use Rattle.isle_interpreter.specs.Clashes.{FindsClashes};
ghost use Rattle.isle_interpreter.specs.Entries.{Entry as EntryOf, entries, answers_for, IsRight, AreRight};
ghost use Rattle.isle_interpreter.specs.EntryViews.{entry, constant_entry};
ghost use Rattle.isle_interpreter.specs.Judged.{AreWrong, AreBad};
ghost use Rattle.isle_interpreter.specs.Refusals.{AreAnswered, AreGiven};
ghost use Rattle.isle_interpreter.specs.Served.{Serves};

use crate::clashes::{clashing, is_clashing};
use crate::constants::Constants;
use crate::entry::{Entry, entry_at};
use crate::run_error::RunError;
use crate::served::Served;
use crate::standing::are_known;
use crate::whole::is_typed;
use crate::within::are_within;
use isle_core::{Answers, Callee, Text, Value};
use isle_places::Signatures;
use isle_tree::{Function, Program};
use std::alloc::{AllocError, Global};
use std::collections::BTreeSet;

// How many entries there are.
fn count(answers: &Answers) -> usize
    requires { length answers.now.consts + length answers.now.pure + length answers.now.turns
        < 2 ^ 64 }
    ensures all { result
        ≡ length answers.now.consts + length answers.now.pure + length answers.now.turns }
    ensures entries { result ≡ length (entries (meaning answers.now)) }
{
    let consts = answers.consts.as_slice().len();
    let pure = answers.pure.as_slice().len();
    consts + pure + answers.turns.as_slice().len()
}

// Whether the entry of a constant is right after earlier ones. The constant joins theirs.
fn is_right_constant<'a>(
    alloc: Global,
    signatures: &Signatures<'_>,
    constants: &Constants<'_>,
    clashing: &BTreeSet<&str>,
    served: &mut Served<'a>,
    given: &'a (Text, Value),
) -> Result<bool, AllocError>
    requires { constants.now ≡ signatures.now }
    ensures right { IfOk result (λ right.
        (earlier : List EntryOf) (f : FunctionOf) (m : Meaning) → Serves earlier served.old
        → FindsClashes (program signatures.now) f m clashing.now
        → IsTrue right ↔ IsRight (program signatures.now) f m earlier (constant_entry given.now)) }
    ensures serves { IfOk result (λ right. (earlier : List EntryOf) → Serves earlier served.old
        → IsTrue right → Serves (earlier ++ constant_entry given.now ∷ []) served.new) }
{
    if !served.give(given.0.as_str())? {
        return Ok(false);
    }
    if !constants.has(given.0.as_str()) {
        return Ok(false);
    }
    if is_clashing(clashing, given.0.as_str()) {
        return Ok(false);
    }
    if !is_typed(&given.1) {
        return Ok(false);
    }
    constants.fits(alloc, signatures.types(), given.0.as_str(), &given.1)
}

// Whether the entry of a callee is right after earlier ones. The callee joins theirs.
fn is_right_callee<'a>(
    alloc: Global,
    signatures: &Signatures<'_>,
    served: &mut Served<'a>,
    callee: &'a Callee,
    given: &Entry<'a>,
) -> Result<bool, AllocError>
    requires { answers_for (entry given.now) ≡ Some callee.now }
    ensures right { IfOk result (λ right.
        (earlier : List EntryOf) (f : FunctionOf) (m : Meaning) → Serves earlier served.old
        → IsTrue right ↔ IsRight (program signatures.now) f m earlier (entry given.now)) }
    ensures serves { IfOk result (λ right. (earlier : List EntryOf) → Serves earlier served.old
        → IsTrue right → Serves (earlier ++ entry given.now ∷ []) served.new) }
{
    if !served.add(callee)? {
        return Ok(false);
    }
    match signatures.of(callee) {
        Some(signature) => given.fits(alloc, signatures.types(), &signature),
        None => Ok(false),
    }
}

// Whether an entry is right after earlier ones. What it answers for joins theirs.
fn is_right<'a>(
    alloc: Global,
    signatures: &Signatures<'_>,
    constants: &Constants<'_>,
    clashing: &BTreeSet<&str>,
    served: &mut Served<'a>,
    given: &Entry<'a>,
) -> Result<bool, AllocError>
    requires { constants.now ≡ signatures.now }
    ensures right { IfOk result (λ right.
        (earlier : List EntryOf) (f : FunctionOf) (m : Meaning) → Serves earlier served.old
        → FindsClashes (program signatures.now) f m clashing.now
        → IsTrue right ↔ IsRight (program signatures.now) f m earlier (entry given.now)) }
    ensures serves { IfOk result (λ right. (earlier : List EntryOf) → Serves earlier served.old
        → IsTrue right → Serves (earlier ++ entry given.now ∷ []) served.new) }
{
    match given {
        Entry::Constant(constant) => {
            is_right_constant(alloc, signatures, constants, clashing, served, constant)
        }
        Entry::Cases(cases) => is_right_callee(alloc, signatures, served, &cases.callee, given),
        Entry::Turns(turns) => is_right_callee(alloc, signatures, served, &turns.callee, given),
    }
}

// What the entries answer for, if each entry is right for a run of the function.
fn all_right<'a>(
    alloc: Global,
    signatures: &Signatures<'_>,
    constants: &Constants<'_>,
    f: &Function,
    answers: &'a Answers,
) -> Result<Served<'a>, RunError>
    requires same { constants.now ≡ signatures.now }
    requires counted { length answers.now.consts + length answers.now.pure
        + length answers.now.turns < 2 ^ 64 }
    ensures right { OnOk result
        (AreRight (program signatures.now) (function f.now) (meaning answers.now) []
        (entries (meaning answers.now))) }
    ensures serves { IfOk result (Serves (entries (meaning answers.now))) }
    ensures wrong { IfErr result
        (AreWrong (program signatures.now) (function f.now) (meaning answers.now)) }
{
    let clashing = clashing(alloc, signatures, constants, f, answers)?;
    let mut served = Served::new(alloc);
    for index in 0..count(answers) {
        let given = entry_at(answers, index);
        if !is_right(alloc, signatures, constants, &clashing, &mut served, &given)? {
            return Err(RunError::BadAnswers(index));
        }
    }
    Ok(served)
}

/// Reports which entry is wrong first, or that something which the function calls, or a constant in it at a
/// place whose type the program fixes, has none; else all do.
pub fn try_entries(
    alloc: Global,
    p: &Program,
    f: &Function,
    answers: &Answers,
) -> Result<(), RunError>
    requires { length answers.now.consts + length answers.now.pure + length answers.now.turns
        < 2 ^ 64 }
    ensures right { OnOk result
        (AreRight (program p.now) (function f.now) (meaning answers.now) []
        (entries (meaning answers.now))) }
    ensures answered { OnOk result (AreAnswered (function f.now) (entries (meaning answers.now))) }
    ensures given { OnOk result
        (AreGiven (program p.now) (function f.now) (entries (meaning answers.now))) }
    ensures bad { IfErr result (AreBad (program p.now) (function f.now) (meaning answers.now)) }
{
    let signatures = Signatures::new(alloc, p)?;
    let constants = Constants::new(alloc, p, &signatures)?;
    let served = match all_right(alloc, &signatures, &constants, f, answers) {
        Ok(served) => served,
        Err(e) => return Err(e),
    };
    if !are_within(&served, f.body.as_slice()) {
        return Err(RunError::BadAnswers(count(answers)));
    }
    if !are_known(alloc, &served, &constants, &signatures, f)? {
        return Err(RunError::BadAnswers(count(answers)));
    }
    Ok(())
}
