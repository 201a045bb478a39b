//! Rules that are unreachable by themselves.

ghost use Rattle.std.specs.Prelude.{◌≡◌, ◌↔◌, IsTrue, IfOk, OnOk, IfSome, Some as SomeOf};
ghost use Rattle.std.specs.BTreeMap.{get, Updates};
ghost use Rattle.isle_checks.specs.Joined.{IsUnreachable};
ghost use Rattle.isle_checks.specs.Classes.{binding_cmp, representative, AreClasses, HaveClash};
ghost use Rattle.isle_checks.specs.Errors.{AreUnreachable};

use crate::classes::Classes;
use isle_core::{BindingId, Constraint, FlatRule};
use std::alloc::{AllocError, Global};
use std::collections::BTreeMap;

// The classes into which these equalities join bindings.
fn joined(alloc: Global, equals: &[(BindingId, BindingId)]) -> Result<Classes, AllocError>
    ensures { IfOk result (λ classes. AreClasses equals.now classes) }
{
    let mut classes = Classes::new(alloc);
    for x in equals {
        classes.join(alloc, x.0, x.1)?;
    }
    Ok(classes)
}

// Notes a constraint on a class, and tells whether none that differs was noted there.
fn note(
    seen: &mut BTreeMap<BindingId, Constraint>,
    class: BindingId,
    constraint: Constraint,
) -> Result<bool, AllocError>
    ensures agrees { let before = get binding_cmp seen.old class in
        IfOk result (λ agrees. IsTrue agrees ↔ IfSome before (λ c. c ≡ constraint)) }
    ensures noted { OnOk result (Updates binding_cmp seen.old seen.new class (SomeOf constraint)) }
{
    match seen.insert(class, constraint)? {
        Some(before) => Ok(before == constraint),
        None => Ok(true),
    }
}

// Whether two constraints on one class differ.
fn have_clash(
    alloc: Global,
    classes: &Classes,
    constraints: &[(BindingId, Constraint)],
) -> Result<bool, AllocError>
    ensures { let class = representative classes.now.representatives in
        IfOk result (λ found. IsTrue found ↔ HaveClash class constraints.now) }
{
    let mut seen = BTreeMap::new(alloc);
    for x in constraints {
        let agrees = note(&mut seen, classes.of(x.0), x.1)?;
        if !agrees {
            return Ok(true);
        }
    }
    Ok(false)
}

/// Tells whether a rule is unreachable by itself: it puts two different constraints on one binding, or on two that its
/// equalities join. The only error is want of memory.
pub fn is_unreachable(alloc: Global, rule: &FlatRule) -> Result<bool, AllocError>
    ensures { IfOk result (λ found. IsTrue found ↔ IsUnreachable rule.now) }
{
    let constraints = rule.constraints.as_slice();
    if constraints.len() < 2 {
        return Ok(false);
    }
    let classes = joined(alloc, rule.equals.as_slice())?;
    have_clash(alloc, &classes, constraints)
}

/// Tells of each rule whether it is unreachable by itself. The only error is want of memory.
pub fn unreachable_rules(alloc: Global, rules: &[FlatRule]) -> Result<Vec<bool>, AllocError>
    ensures { IfOk result (λ found. AreUnreachable rules.now found.items) }
{
    let mut found = Vec::new(alloc);
    for rule in rules {
        found.push(is_unreachable(alloc, rule)?)?;
    }
    Ok(found)
}
