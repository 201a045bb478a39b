//! The constants of a function whose values others of their types have too.

ghost use Rattle.std.specs.Prelude.{◌≡◌, ◌++◌, ℕ, ℤ, List, IfOk, OnOk, Some, map, option_map, option_to_list};
ghost use Rattle.isle_core.specs.ValueViews.{meaning};
ghost use Rattle.isle_interpreter.specs.Clashes.{joined_owner, noted_owner, owner_at, at_key, is_only};
ghost use Rattle.isle_interpreter.specs.Clashes.{unless_only, clash_of, clashes, held, FindsClashes};
ghost use Rattle.isle_operand_names.specs.Sets.{has_name};
ghost use Rattle.isle_tree.specs.Views.{function, program};

use crate::constants::Constants;
use crate::holders::{Holder, by_constant, holders};
use isle_core::Answers;
use isle_operand_names::set_of;
use isle_places::{Signatures, push_places};
use isle_tree::Function;
use std::alloc::{AllocError, Global};
use std::collections::{BTreeMap, BTreeSet};

// The name that is alone with another one, if any is.
fn both<'s>(first: &'s str, name: Option<&'s str>) -> Option<&'s str>
    ensures { option_map (λ n. n.now) result
        ≡ joined_owner (Some (Some first.now)) (option_map (λ n. n.now) name.entry) }
{
    match name {
        Some(other) => { if first == other { Some(first) } else { None } }
        None => None,
    }
}

// The name that is alone with a key, if one more has it.
fn joined<'s>(known: Option<Option<&'s str>>, name: Option<&'s str>) -> Option<&'s str>
    ensures { option_map (λ n. n.now) result
        ≡ joined_owner (option_map (option_map (λ n. n.now)) known.entry)
        (option_map (λ n. n.now) name.entry) }
{
    match known {
        None => name,
        Some(None) => None,
        Some(Some(first)) => both(first, name),
    }
}

// Notes what holds a key.
fn note<'h, 's>(
    found: &mut BTreeMap<&'h [i128], Option<&'s str>>,
    holder: &'h Holder<'s>,
) -> Result<(), AllocError>
    ensures { OnOk result
        ((key : List ℤ)
        → at_key found.new key ≡ noted_owner key (at_key found.old key) (held holder.now)) }
{
    let key = holder.key.as_slice();
    let owner = joined(owner_at(found, key), holder.owner);
    found.insert(key, owner)?;
    Ok(())
}

// The names that are alone with keys.
fn owners<'h, 's>(
    alloc: Global,
    holders: &'h [Holder<'s>],
) -> Result<BTreeMap<&'h [i128], Option<&'s str>>, AllocError>
    ensures { IfOk result (λ found.
        (key : List ℤ) → at_key found key ≡ owner_at key (map held holders.now)) }
{
    let mut found = BTreeMap::new(alloc);
    for holder in holders {
        note(&mut found, holder)?;
    }
    Ok(found)
}

// What is known of a key.
fn owner_at<'s>(
    owners: &BTreeMap<&[i128], Option<&'s str>>,
    key: &[i128],
) -> Option<Option<&'s str>>
    ensures { option_map (option_map (λ n. n.now)) result ≡ at_key owners.now key.now }
{
    owners.get(key).copied()
}

// Whether one name alone has a key.
fn is_only(name: &str, known: Option<Option<&str>>) -> bool
    ensures { result ≡ is_only name.now (option_map (option_map (λ n. n.now)) known.entry) }
{
    match known {
        None | Some(None) => false,
        Some(Some(first)) => name == first,
    }
}

// A name, unless it is alone with its key.
fn unless_only<'s>(name: &'s str, known: Option<Option<&'s str>>) -> Option<&'s str>
    ensures { option_map (λ n. n.now) result
        ≡ unless_only name.now (option_map (option_map (λ n. n.now)) known.entry) }
{
    if is_only(name, known) {
        None
    } else {
        Some(name)
    }
}

// The name of a constant, unless it is alone with its key.
fn clash<'s>(owners: &BTreeMap<&[i128], Option<&'s str>>, holder: &Holder<'s>) -> Option<&'s str>
    ensures { option_map (λ n. n.now) result ≡ clash_of (at_key owners.now) (held holder.now) }
{
    match holder.owner {
        Some(name) => unless_only(name, owner_at(owners, holder.key.as_slice())),
        None => None,
    }
}

// Appends a name, if there is one.
fn push_name<'s>(names: &mut Vec<&'s str>, name: Option<&'s str>) -> Result<(), AllocError>
    ensures { OnOk result
        (map (λ n. n.now) names.new.items
        ≡ map (λ n. n.now) names.old.items ++ option_to_list (option_map (λ n. n.now) name.entry)) }
{
    match name {
        Some(name) => Ok(names.push(name)?),
        None => Ok(()),
    }
}

// The names that aren't alone with their keys.
fn shared<'s>(alloc: Global, holders: &[Holder<'s>]) -> Result<Vec<&'s str>, AllocError>
    ensures { IfOk result (λ names. map (λ n. n.now) names.items ≡ clashes (map held holders.now)) }
{
    let owners = owners(alloc, holders)?;
    let mut names = Vec::new(alloc);
    for holder in holders {
        push_name(&mut names, clash(&owners, holder))?;
    }
    Ok(names)
}

/// Finds the names of the constants in a function whose values other constants of their types there have too, under
/// these answers. The only error is want of memory.
pub fn clashing<'s>(
    alloc: Global,
    signatures: &'s Signatures<'_>,
    constants: &Constants<'_>,
    f: &'s Function,
    answers: &'s Answers,
) -> Result<BTreeSet<&'s str>, AllocError>
    requires { constants.now ≡ signatures.now }
    ensures { IfOk result
        (FindsClashes (program signatures.now) (function f.now) (meaning answers.now)) }
{
    let given = by_constant(alloc, answers.consts.as_slice())?;
    let mut places = Vec::new(alloc);
    push_places(alloc, signatures, &mut places, f)?;
    let found = holders(alloc, constants, &given, places.as_slice())?;
    let names = shared(alloc, found.as_slice())?;
    set_of(alloc, names.as_slice())
}

/// Tells whether a constant is one of these.
pub fn is_clashing(clashing: &BTreeSet<&str>, name: &str) -> bool
    ensures { result ≡ has_name clashing.now name.now }
{
    clashing.contains(name)
}
