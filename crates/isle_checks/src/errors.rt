//! The errors of the rules of a term.

ghost use Rattle.std.specs.Prelude.{◌≡◌, ◌<◌, ◌≤◌, Some as SomeOf, length, IfOk, OnOk, IfSome, IsTrue};
ghost use Rattle.isle_checks.specs.CheckList as list;
ghost use Rattle.isle_checks.specs.CheckList.{told, single, unreachable_of, overlap_of, shadow_of};
ghost use Rattle.isle_checks.specs.Errors.{places_of, IsSoundAlone, Joined, JoinedOf};

use crate::firsts::firsts_of_term;
use crate::names::TermNames;
use crate::placed::Check;
use crate::unreachable::{is_unreachable, unreachable_rules};
use isle_core::{Error, FlatRule, List, OutOfMemory, Pos, Span, Text};
use std::alloc::{AllocError, Global};

// The error of a rule that is unreachable by itself.
fn unreachable_error(alloc: Global, rule: Pos) -> Result<Error, AllocError>
    ensures { IfOk result (λ e. told e ≡ SomeOf (list.Unreached (SomeOf (single rule)))) }
{
    let msg = Text::copied(alloc, "two patterns ask for different values at one place")?;
    Ok(Error::UnreachableError {
        msg,
        span: Span::new_single(rule),
    })
}

/// The rules of a term, and its names if words tell them.
#[derive(Clone, Copy)]
pub struct TermRules<'a> {
    pub rules: &'a [FlatRule],
    pub names: Option<TermNames<'a>>,
}

impl TermRules<'_> {
    // What words call the rule at a place: its number among those of its term, counted from 1, and its name.
    fn rule_words(&self, alloc: Global, place: usize) -> Result<String, OutOfMemory> {
        let number = place.saturating_add(1);
        let Some(names) = self.names else {
            return Ok(format!(in alloc; "rule {number} of its term")?);
        };
        let term = names.term;
        match names.rule(place) {
            Some(name) => Ok(format!(in alloc; "rule {number} of {term}, named {name},")?),
            None => Ok(format!(in alloc; "rule {number} of {term}")?),
        }
    }

    // The words for a rule that overlaps the rule at a place.
    fn overlap_words(&self, alloc: Global, earlier: usize) -> Result<Text, OutOfMemory> {
        let rule = self.rule_words(alloc, earlier)?;
        let words = format!(in alloc; "{rule} has the same priority and matches too")?;
        Ok(Text::new(words))
    }
}

// The error of two rules that overlap, in these words.
fn overlap_error(alloc: Global, msg: Text, earlier: Pos, later: Pos) -> Result<Error, OutOfMemory>
    ensures { IfOk result (λ e.
        told e ≡ SomeOf (list.Overlap (SomeOf (single earlier)) (SomeOf (single later)))) }
{
    let rules = vec![in alloc; Span::new_single(earlier), Span::new_single(later)]?;
    Ok(Error::OverlapError {
        msg,
        rules: List::new(rules),
    })
}

// The error of a rule that another one shadows.
fn shadow_error(shadowed: Pos, mask: Pos) -> Error
    ensures { told result
        ≡ SomeOf (list.Shadowed (SomeOf (single shadowed)) (SomeOf (single mask))) }
{
    Error::ShadowedError {
        shadowed: Span::new_single(shadowed),
        mask: Span::new_single(mask),
    }
}

// Adds the rule at a place, where it is unreachable by itself.
fn push_unreachable(
    alloc: Global,
    rules: &[FlatRule],
    place: usize,
    unreachable: bool,
    errors: &mut Vec<Error>,
) -> Result<(), AllocError>
    requires { place < length rules.now }
    ensures { OnOk result (Joined errors.old.items errors.new.items
        (unreachable_of (places_of rules.now) place unreachable)) }
{
    if unreachable {
        errors.push(unreachable_error(alloc, rules[place].pos)?)?;
    }
    Ok(())
}

// Adds the overlap of the rule at a place with an earlier one, if there is one.
fn push_overlap(
    alloc: Global,
    term: &TermRules<'_>,
    place: usize,
    earlier: Option<usize>,
    errors: &mut Vec<Error>,
) -> Result<(), OutOfMemory>
    requires place { place < length term.now.rules.now }
    requires earlier { IfSome earlier (λ i. i < length term.now.rules.now) }
    ensures { OnOk result (Joined errors.old.items errors.new.items
        (overlap_of (places_of term.now.rules.now) place earlier)) }
{
    let rules = term.rules;
    if let Some(earlier) = earlier {
        let words = term.overlap_words(alloc, earlier)?;
        errors.push(overlap_error(alloc, words, rules[earlier].pos, rules[place].pos)?)?;
    }
    Ok(())
}

// Adds the rule at a place under the one that shadows it, if there is one.
fn push_shadow(
    rules: &[FlatRule],
    place: usize,
    mask: Option<usize>,
    errors: &mut Vec<Error>,
) -> Result<(), AllocError>
    requires place { place < length rules.now }
    requires mask { IfSome mask (λ i. i < length rules.now) }
    ensures { OnOk result (Joined errors.old.items errors.new.items
        (shadow_of (places_of rules.now) place mask)) }
{
    if let Some(mask) = mask {
        errors.push(shadow_error(rules[place].pos, rules[mask].pos))?;
    }
    Ok(())
}

// Whether a term has one rule, which is reachable: then nothing is wrong with it.
fn is_sound_alone(alloc: Global, rules: &[FlatRule]) -> Result<bool, AllocError>
    ensures { IfOk result (λ alone. IsTrue alone → IsSoundAlone rules.now) }
{
    match rules {
        [rule] => Ok(!is_unreachable(alloc, rule)?),
        _ => Ok(false),
    }
}

/// Adds the errors of the rules of a term, rule by rule: that it is unreachable by itself, then the first
/// earlier one that overlaps it, then the first that shadows it; only the unreachable ones if the term
/// answers several times (`multi`). The only error is want of memory.
pub fn push_errors(
    alloc: Global,
    multi: bool,
    term: &TermRules<'_>,
    errors: &mut Vec<Error>,
) -> Result<(), OutOfMemory>
    ensures { OnOk result (JoinedOf multi term.now.rules.now errors.old.items errors.new.items) }
{
    let rules = term.rules;
    let alone = is_sound_alone(alloc, rules)?;
    if alone {
        return Ok(());
    }
    let unreachable = unreachable_rules(alloc, rules)?;
    let overlaps = firsts_of_term(alloc, Check::Overlaps, multi, rules)?;
    let masks = firsts_of_term(alloc, Check::Shadows, multi, rules)?;
    for place in 0..rules.len() {
        push_unreachable(alloc, rules, place, unreachable[place], errors)?;
        push_overlap(alloc, term, place, overlaps[place], errors)?;
        push_shadow(rules, place, masks[place], errors)?;
    }
    Ok(())
}
