//! Arguments and answers of types.

ghost use Rattle.std.specs.Prelude.{◌≡◌, ◌↔◌, ℕ, List, length, map, IsTrue, IfOk};
ghost use Rattle.std.specs.List.{AllByRecursion};
ghost use Rattle.isle_core.specs.ValueViews.{values, answer};
ghost use Rattle.isle_places.specs.Signatures.{type_names};
ghost use Rattle.isle_interpreter.specs.Named.{AreNamed, AnswerFits};
ghost use Rattle.isle_interpreter.specs.FirstWrong.{IsFirstWrong};
ghost use Rattle.isle_places.specs.SignatureViews.{signature};

use crate::typed::is_named;
use isle_core::{Answer, List, ReturnKind, Text, Value};
use isle_places::{Signature, Types};
use isle_tree::Ty;
use std::alloc::{AllocError, Global};

// Whether there are as many values as names, each of its type.
#[tactic(auto, using(crate::proofs::NamedApart::named_apart))]
fn are_named(
    alloc: Global,
    types: &Types<'_>,
    names: &[Text],
    given: &[Value],
) -> Result<bool, AllocError>
    ensures { IfOk result (λ are. IsTrue are ↔ AreNamed types.now names.now (values given.now)) }
{
    if names.len() != given.len() {
        return Ok(false);
    }
    for index in 0..names.len() {
        if !is_named(alloc, types, names[index].as_str(), &given[index])? {
            return Ok(false);
        }
    }
    Ok(true)
}

// Whether there are as many values as names in each of these, each of its type.
fn all_named(
    alloc: Global,
    types: &Types<'_>,
    names: &[Text],
    given: &[List<Value>],
) -> Result<bool, AllocError>
    ensures { IfOk result (λ all.
        IsTrue all ↔ AllByRecursion (AreNamed types.now names.now) (map values given.now)) }
{
    for found in given {
        if !are_named(alloc, types, names, found.as_slice())? {
            return Ok(false);
        }
    }
    Ok(true)
}

// Whether an answer is of the kind, with values of the types of these names.
#[tactic(auto, using(isle_outcomes::proofs::SeesValues::sees_values))]
fn answer_fits(
    alloc: Global,
    types: &Types<'_>,
    results: &[Text],
    kind: ReturnKind,
    given: &Answer,
) -> Result<bool, AllocError>
    ensures { (params : List (List ℕ)) → IfOk result (λ fits. IsTrue fits
        ↔ AnswerFits types.now (record { params = params; results = results.now; kind = kind })
        (answer given.now)) }
{
    match given {
        Answer::Plain(found) => {
            let named = are_named(alloc, types, results, found.as_slice())?;
            Ok(kind == ReturnKind::Plain && named)
        }
        Answer::Some(found) => {
            let named = are_named(alloc, types, results, found.as_slice())?;
            Ok(kind == ReturnKind::Option && named)
        }
        Answer::Nothing => Ok(kind == ReturnKind::Option),
        Answer::List(answers) => {
            let named = all_named(alloc, types, results, answers.as_slice())?;
            Ok(kind == ReturnKind::Iterator && named)
        }
    }
}

/// Returns the number of the first argument that is no value of its parameter's type. The only error is want of memory.
pub fn first_wrong(
    alloc: Global,
    types: &Types<'_>,
    params: &[Ty],
    args: &[Value],
) -> Result<Option<usize>, AllocError>
    requires { length args.now ≡ length params.now }
    ensures { IfOk result (λ wrong.
        IsFirstWrong types.now (type_names params.now) (values args.now) wrong) }
{
    for index in 0..params.len() {
        if !is_named(alloc, types, params[index].name.as_str(), &args[index])? {
            return Ok(Some(index));
        }
    }
    Ok(None)
}

/// Tells whether these are as many values as the function takes, each of its parameter's type. The only error is want
/// of memory.
pub fn takes(
    alloc: Global,
    types: &Types<'_>,
    of: &Signature<'_>,
    args: &[Value],
) -> Result<bool, AllocError>
    ensures { IfOk result (λ takes.
        IsTrue takes ↔ AreNamed types.now (signature of.now).params (values args.now)) }
{
    if args.len() != of.params.len() {
        return Ok(false);
    }
    Ok(first_wrong(alloc, types, of.params, args)?.is_none())
}

/// Tells whether the function can answer so. The only error is want of memory.
pub fn gives(
    alloc: Global,
    types: &Types<'_>,
    of: &Signature<'_>,
    given: &Answer,
) -> Result<bool, AllocError>
    ensures { IfOk result (λ gives.
        IsTrue gives ↔ AnswerFits types.now (signature of.now) (answer given.now)) }
{
    answer_fits(alloc, types, of.results, of.kind, given)
}
