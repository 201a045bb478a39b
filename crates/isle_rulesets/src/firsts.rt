ghost use Rattle.std.specs.Prelude.{◌≡◌, IfOk, [], filter};
ghost use Rattle.isle_core.specs.StandsFor.{AreFirsts};
ghost use Rattle.isle_rulesets.specs.Firsts.{TellsApart, are_two};

use isle_core::{BindingId, Constraint};
use std::alloc::{AllocError, Global};
use std::collections::BTreeSet;

// The same items.
fn copied<T: Copy + Drop>(alloc: Global, items: &[T]) -> Result<Vec<T>, AllocError>
    ensures { IfOk result (λ copies. copies.items ≡ items.now) }
{
    let mut copies = Vec::new(alloc);
    for item in items {
        copies.push(*item)?;
    }
    Ok(copies)
}

// Each item where it stands first. One alone is no other's repeat.
#[tactic(auto, using(crate::proofs::FirstLaws::alone_first))]
fn firsts<T: Ord + Copy + Drop>(alloc: Global, items: &[T]) -> Result<Vec<T>, AllocError>
    requires { TellsApart T.cmp }
    ensures { IfOk result (λ found. AreFirsts [] items.now found.items) }
{
    if items.len() < 2 {
        return copied(alloc, items);
    }
    let mut seen = BTreeSet::new(alloc);
    let mut found = Vec::new(alloc);
    for item in items {
        if seen.insert(*item)? {
            found.push(*item)?;
        }
    }
    Ok(found)
}

// Whether an equality is of two bindings, and not of one with itself.
fn are_two(equality: &(BindingId, BindingId)) -> bool
    ensures { result ≡ are_two equality.now }
{
    equality.0.index() != equality.1.index()
}

// The equalities of two bindings.
fn of_two(
    alloc: Global,
    equals: &[(BindingId, BindingId)],
) -> Result<Vec<(BindingId, BindingId)>, AllocError>
    ensures { IfOk result (λ kept. kept.items ≡ filter are_two equals.now) }
{
    let mut kept = Vec::new(alloc);
    for equality in equals {
        if are_two(equality) {
            kept.push(*equality)?;
        }
    }
    Ok(kept)
}

/// Returns each call where it stands first. The only error is want of memory.
pub fn first_calls(alloc: Global, calls: &[BindingId]) -> Result<Vec<BindingId>, AllocError>
    ensures { IfOk result (λ found. AreFirsts [] calls.now found.items) }
{
    firsts(alloc, calls)
}

/// Returns each constraint where it stands first. The only error is want of memory.
pub fn first_constraints(
    alloc: Global,
    constraints: &[(BindingId, Constraint)],
) -> Result<Vec<(BindingId, Constraint)>, AllocError>
    ensures { IfOk result (λ found. AreFirsts [] constraints.now found.items) }
{
    firsts(alloc, constraints)
}

/// Returns each equality of two bindings where it stands first. The only error is want of memory.
pub fn first_equals(
    alloc: Global,
    equals: &[(BindingId, BindingId)],
) -> Result<Vec<(BindingId, BindingId)>, AllocError>
    ensures { IfOk result (λ found. AreFirsts [] (filter are_two equals.now) found.items) }
{
    let kept = of_two(alloc, equals)?;
    firsts(alloc, kept.as_slice())
}
