//! What calls are answered.

ghost use Rattle.std.specs.Prelude.{◌≡◌, IfOk, Some, map, option_map, slice_index_or};
ghost use Rattle.isle_core.specs.Answered.{answer_held, item_of};
ghost use Rattle.isle_core.specs.Meaning.{same_values, case_at};
ghost use Rattle.isle_core.specs.ValueViews.{values, answer as answer_of, pure_answers};
ghost use Rattle.isle_running.specs.RunViews.{held, item};
ghost use Rattle.isle_running.specs.Sources.{source, answered_by};

use crate::holding::{Holding, Item, values_copied};
use crate::source::Source;
use isle_core::{Answer, List, PureAnswers, Value};
use isle_outcomes::{copied, same};
use std::alloc::{AllocError, Global};

// The item of the results of an answer.
fn item_of(alloc: Global, results: &[Value]) -> Result<Item, AllocError>
    ensures { IfOk result (λ i. item i ≡ item_of (values results.now)) }
{
    match results {
        [value] => Ok(Item::Value(copied(alloc, value)?)),
        [] | [_, _, ..] => Ok(Item::Tuple(values_copied(alloc, results)?)),
    }
}

// The items of several answers, in order.
fn items_of(alloc: Global, answers: &[List<Value>]) -> Result<List<Item>, AllocError>
    ensures { IfOk result (λ items. map item items ≡ map item_of (map values answers.now)) }
{
    let mut items = Vec::new(alloc);
    for results in answers {
        items.push(item_of(alloc, results.as_slice())?)?;
    }
    Ok(List::new(items))
}

// What an answer holds.
fn answer_holding(alloc: Global, answer: &Answer) -> Result<Holding, AllocError>
    ensures { IfOk result (λ h. held h ≡ answer_held (answer_of answer.now)) }
{
    match answer {
        Answer::Plain(results) => Ok(Holding::One(item_of(alloc, results.as_slice())?)),
        Answer::Some(results) => {
            let item = item_of(alloc, results.as_slice())?;
            Ok(Holding::Optional(Some(item)))
        }
        Answer::Nothing => Ok(Holding::Optional(None)),
        Answer::List(answers) => Ok(Holding::Listed(items_of(alloc, answers.as_slice())?)),
    }
}

// Whether values are equal in a run, in order.
#[tactic(auto, using(crate::proofs::ValuesApart::values_apart))]
fn same_values(ones: &[Value], others: &[Value]) -> bool
    ensures { result ≡ same_values (values ones.now) (values others.now) }
{
    if ones.len() != others.len() {
        return false;
    }
    for index in 0..ones.len() {
        if !same(&ones[index], &others[index]) {
            return false;
        }
    }
    true
}

// The answer of the next turn, or the rest.
fn turn_holding(alloc: Global, turns: &[Answer], rest: &Answer) -> Result<Holding, AllocError>
    ensures { IfOk result (λ h.
        held h ≡ answer_held (slice_index_or (map answer_of turns.now) 0 (answer_of rest.now))) }
{
    match turns.first() {
        Some(turn) => answer_holding(alloc, turn),
        None => answer_holding(alloc, rest),
    }
}

// The answer of the first case with these arguments, or the rest.
fn case_holding(alloc: Global, answers: &PureAnswers, args: &[Value]) -> Result<Holding, AllocError>
    ensures { IfOk result (λ h.
        held h ≡ answer_held (case_at (Some (pure_answers answers.now)) (values args.now))) }
{
    for case in answers.cases.as_slice() {
        if same_values(case.0.as_slice(), args) {
            return answer_holding(alloc, &case.1);
        }
    }
    answer_holding(alloc, &answers.rest)
}

/// Returns what a call is answered by a callee that has these answers.
pub fn answered(
    alloc: Global,
    given: Option<Source<'_>>,
    args: &[Value],
) -> Result<Holding, AllocError>
    ensures { IfOk result (λ h.
        held h ≡ answer_held (answered_by (option_map source given.entry) (values args.now))) }
{
    match given {
        Some(Source::Turns(turns, rest)) => turn_holding(alloc, turns, rest),
        Some(Source::Cases(cases)) => case_holding(alloc, cases, args),
        None => Ok(Holding::Optional(None)),
    }
}
