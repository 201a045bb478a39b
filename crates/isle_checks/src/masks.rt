//! The rules that shadow others.

ghost use Rattle.std.specs.Prelude.{◌≡◌, ◌⊎◌, ◌<◌, ◌∷◌, [], length, IfOk, IfSome, OnOk};
ghost use Rattle.std.specs.Prelude.{Option as OptionOf, Some as SomeOf};
ghost use Rattle.isle_checks.specs.declared.lists.Key.{Key as TheKey};
ghost use Rattle.isle_checks.specs.declared.lists.Key.TheVariants as keys;
ghost use Rattle.isle_checks.specs.declared.placed.Check.TheVariants as found_by;
ghost use Rattle.isle_checks.specs.Lists.{Rises, AreLists, listing};
ghost use Rattle.isle_checks.specs.Masks.{ArePlain, Bears, BearsKey, MayJoin, candidates, under_each};
ghost use Rattle.isle_checks.specs.Firsts.{AreBelow, Finds};

use crate::lists::{Key, Lists};
use crate::notes::note_first;
use crate::placed::{Check, Placed};
use crate::priorities::have_one_priority;
use isle_core::{BindingId, Constraint};
use std::alloc::{AllocError, Global};
use std::collections::BTreeMap;

// Adds a rule to others if it has no equality.
fn push_plain<'a>(plain: &mut Vec<Placed<'a>>, placed: Placed<'a>) -> Result<(), AllocError>
    ensures { OnOk result (MayJoin placed.entry plain.old.items plain.new.items) }
{
    if placed.rule.equals.as_slice().is_empty() {
        plain.push(placed)?;
    }
    Ok(())
}

// The rules without equalities: no other one shadows, or is shadowed.
fn plain<'a>(alloc: Global, group: &[Placed<'a>]) -> Result<Vec<Placed<'a>>, AllocError>
    requires { Rises group.now }
    ensures { IfOk result (λ plain. ArePlain group.now plain.items) }
{
    let mut plain = Vec::new(alloc);
    for placed in group {
        push_plain(&mut plain, *placed)?;
    }
    Ok(plain)
}

// How often each constraint stands in a group.
fn counts(alloc: Global, group: &[Placed<'_>]) -> Result<BTreeMap<Key, usize>, AllocError> {
    let mut counts = BTreeMap::new(alloc);
    for placed in group {
        for (binding, constraint) in placed.rule.constraints.as_slice() {
            let count = counts
                .entry(Key::Constraint(*binding, *constraint))?
                .or_insert(0usize);
            *count = count.saturating_add(1);
        }
    }
    Ok(counts)
}

// How often a constraint stands, as was counted.
fn count(counts: &BTreeMap<Key, usize>, key: &Key) -> usize {
    counts.get(key).copied().unwrap_or(0)
}

// The rarer of two constraints that have been counted.
fn rarer(best: Option<(Key, usize)>, next: (Key, usize)) -> (Key, usize)
    ensures { (best ≡ SomeOf result) ⊎ (result ≡ next) }
{
    let Some(before) = best else {
        return next;
    };
    if before.1 <= next.1 {
        return before;
    }
    next
}

// The rarest of some constraints, if there is one. Of one that stands alone no count is asked.
fn rarest(counts: &BTreeMap<Key, usize>, constraints: &[(BindingId, Constraint)]) -> Option<Key>
    ensures { IfSome result (Bears constraints.now) }
{
    if let [x] = constraints {
        return Some(Key::Constraint(x.0, x.1));
    }
    let mut best = None;
    for x in constraints {
        let key = Key::Constraint(x.0, x.1);
        best = Some(rarer(best, (key, count(counts, &key))));
    }
    let found = best?;
    Some(found.0)
}

// Lists the rules of a group under the rarest constraint of each.
fn lists<'a>(alloc: Global, group: &[Placed<'a>]) -> Result<Lists<'a>, AllocError>
    requires { Rises group.now }
    ensures { IfOk result (λ lists. AreLists BearsKey group.now (listing lists)) }
{
    let counts = counts(alloc, group)?;
    let mut lists = Lists::new(alloc);
    for placed in group {
        let key = rarest(&counts, placed.rule.constraints.as_slice());
        lists.push(alloc, key, *placed)?;
    }
    Ok(lists)
}

// Notes the first rule under a constraint that shadows one.
fn note_under<'a>(
    lists: &Lists<'a>,
    x: &(BindingId, Constraint),
    other: &Placed<'a>,
    found: &mut Vec<Option<usize>>,
)
    requires rise { (key : OptionOf TheKey) → Rises (listing lists.now key) }
    requires below { other.now.place < length found.old.items }
    ensures { let makers = listing lists.now (SomeOf (keys.Constraint x.now.0 x.now.1)) in
        Finds found_by.Shadows makers (other.now ∷ []) found.old.items found.new.items }
{
    if let Some(makers) = lists.under.get(&Key::Constraint(x.0, x.1)) {
        note_first(Check::Shadows, makers.above(other), other, found);
    }
}

// Notes the first rule under each of some constraints that shadows one.
fn note_each_under<'a>(
    lists: &Lists<'a>,
    constraints: &[(BindingId, Constraint)],
    other: &Placed<'a>,
    found: &mut Vec<Option<usize>>,
)
    requires rise { (key : OptionOf TheKey) → Rises (listing lists.now key) }
    requires below { other.now.place < length found.old.items }
    ensures { let makers = under_each (listing lists.now) constraints.now in
        Finds found_by.Shadows makers (other.now ∷ []) found.old.items found.new.items }
{
    for x in constraints {
        note_under(lists, x, other, found);
    }
}

// Notes the first rule that shadows one: it stands under a constraint of that one, or bears none.
fn note_mask<'a>(lists: &Lists<'a>, other: &Placed<'a>, found: &mut Vec<Option<usize>>)
    requires rise { (key : OptionOf TheKey) → Rises (listing lists.now key) }
    requires below { other.now.place < length found.old.items }
    ensures { let makers = candidates (listing lists.now) other.now.rule.now.constraints in
        Finds found_by.Shadows makers (other.now ∷ []) found.old.items found.new.items }
{
    note_first(Check::Shadows, lists.rest.above(other), other, found);
    note_each_under(lists, other.rule.constraints.as_slice(), other, found);
}

// Notes for each rule of a group that is listed the first one that shadows it.
fn note_each<'a>(lists: &Lists<'a>, group: &[Placed<'a>], found: &mut Vec<Option<usize>>)
    requires lists { AreLists BearsKey group.now (listing lists.now) }
    requires below { AreBelow (length found.old.items) group.now }
    ensures { Finds found_by.Shadows group.now group.now found.old.items found.new.items }
{
    for other in group {
        note_mask(lists, other, found);
    }
}

/// Notes for each rule of a group the first one of it that shadows it: none, where all have one priority, and
/// else only those are compared of which one bears the rarest constraint of the other. The only error is want
/// of memory.
pub fn note_masks<'a>(
    alloc: Global,
    group: &[Placed<'a>],
    found: &mut Vec<Option<usize>>,
) -> Result<(), AllocError>
    requires rise { Rises group.now }
    requires below { AreBelow (length found.old.items) group.now }
    ensures { OnOk result
        (Finds found_by.Shadows group.now group.now found.old.items found.new.items) }
{
    if have_one_priority(group) {
        return Ok(());
    }
    let plain = plain(alloc, group)?;
    let lists = lists(alloc, plain.as_slice())?;
    note_each(&lists, plain.as_slice(), found);
    Ok(())
}
