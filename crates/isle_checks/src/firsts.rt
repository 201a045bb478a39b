//! The first rule that makes an error of each rule.

ghost use Rattle.std.specs.Prelude.{◌≡◌, length, replicate, None, IfOk, OnOk};
ghost use Rattle.isle_checks.specs.Lists.{Rises};
ghost use Rattle.isle_checks.specs.Firsts.{AreFirstMakers, AreFirstsOfTerm, ArePlaced, AreBelow, Finds};

use crate::masks::note_masks;
use crate::placed::{Check, Placed};
use crate::within::within;
use isle_core::FlatRule;
use std::alloc::{AllocError, Global};

// The rules with their places.
fn placed(alloc: Global, rules: &[FlatRule]) -> Result<Vec<Placed<'_>>, AllocError>
    ensures { IfOk result (λ group. ArePlaced rules.now group.items) }
{
    let mut group = Vec::new(alloc);
    for (place, rule) in rules.iter().enumerate() {
        group.push(Placed { place, rule })?;
    }
    Ok(group)
}

// Notes for each rule of a group the first one of it that makes an error of it.
fn note<'a>(
    alloc: Global,
    check: Check,
    group: &[Placed<'a>],
    found: &mut Vec<Option<usize>>,
) -> Result<(), AllocError>
    requires rise { Rises group.now }
    requires below { AreBelow (length found.old.items) group.now }
    ensures { OnOk result (Finds check group.now group.now found.old.items found.new.items) }
{
    match check {
        Check::Overlaps => within(alloc, group, found),
        Check::Shadows => note_masks(alloc, group, found),
    }
}

// As many places, of which none is found.
fn none_found(alloc: Global, count: usize) -> Result<Vec<Option<usize>>, AllocError>
    ensures { IfOk result (λ found. found.items ≡ replicate count None) }
{
    let mut found = Vec::new(alloc);
    for _ in 0..count {
        found.push(None)?;
    }
    Ok(found)
}

// Finds for each rule the place of the first one that makes an error of it; a rule makes none of itself.
#[tactic(auto, using(crate::proofs::FirstLaws::few_rules))]
fn firsts(alloc: Global, check: Check, rules: &[FlatRule]) -> Result<Vec<Option<usize>>, AllocError>
    ensures { IfOk result (λ found. AreFirstMakers check rules.now found.items) }
{
    let mut found = none_found(alloc, rules.len())?;
    if rules.len() < 2 {
        return Ok(found);
    }
    let group = placed(alloc, rules)?;
    note(alloc, check, group.as_slice(), &mut found)?;
    Ok(found)
}

/// Finds for each rule of a term the place of the first one that makes an error of it: none if the term
/// answers several times (`multi`), since its rules may overlap, and shadow each other. The only error is
/// want of memory.
pub fn firsts_of_term(
    alloc: Global,
    check: Check,
    multi: bool,
    rules: &[FlatRule],
) -> Result<Vec<Option<usize>>, AllocError>
    ensures { IfOk result (λ found. AreFirstsOfTerm check multi rules.now found.items) }
{
    if multi {
        return none_found(alloc, rules.len());
    }
    firsts(alloc, check, rules)
}
