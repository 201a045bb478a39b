//! How rules are told apart, so that few are compared.

ghost use Rattle.std.specs.Prelude.{IfOk, IfSome};
ghost use Rattle.isle_checks.specs.Lists.{Rises, AreLists, listing};
ghost use Rattle.isle_checks.specs.Splitter.{HasKey};

use crate::bears::first_on;
use crate::lists::{Key, Lists};
use crate::placed::Placed;
use crate::priorities::have_one_priority;
use isle_core::{BindingId, Constraint, FlatRule};
use std::alloc::{AllocError, Global};
use std::collections::BTreeMap;

/// By what rules are told apart: their priorities, or their constraints on a binding.
#[derive(Clone, Copy)]
pub enum Splitter {
    Priority,
    Binding(BindingId),
}

impl Splitter {
    // What tells a rule from others, if something does.
    fn key(self, rule: &FlatRule) -> Option<Key>
        ensures { IfSome result (HasKey self rule.now) }
    {
        match self {
            Splitter::Priority => Some(Key::Priority(rule.prio)),
            Splitter::Binding(binding) => {
                let constraint = first_on(rule.constraints.as_slice(), binding)?;
                Some(Key::Constraint(binding, constraint))
            }
        }
    }

    /// Tells whether something tells a rule from others.
    pub fn has_key(self, rule: &FlatRule) -> bool {
        self.key(rule).is_some()
    }

    /// Lists the rules of a group under what tells them apart. The only error is want of memory.
    pub fn lists<'a>(self, alloc: Global, group: &[Placed<'a>]) -> Result<Lists<'a>, AllocError>
        requires { Rises group.now }
        ensures { IfOk result (λ lists. AreLists (HasKey self) group.now (listing lists)) }
    {
        let mut lists = Lists::new(alloc);
        for placed in group {
            lists.push(alloc, self.key(placed.rule), *placed)?;
        }
        Ok(lists)
    }
}

/// How many constraints stand on a binding, the first of these, and whether another one differs.
#[derive(Clone, Copy)]
struct Tally {
    count: usize,
    first: Constraint,
    differ: bool,
}

// No constraint yet, before this one is added.
fn tally_before(first: Constraint) -> Tally {
    Tally {
        count: 0,
        first,
        differ: false,
    }
}

// One constraint more on a binding.
fn add(tally: &mut Tally, constraint: Constraint) {
    tally.count = tally.count.saturating_add(1);
    if tally.first != constraint {
        tally.differ = true;
    }
}

// The constraints on each binding.
fn tallies(alloc: Global, group: &[Placed<'_>]) -> Result<BTreeMap<BindingId, Tally>, AllocError> {
    let mut tallies = BTreeMap::new(alloc);
    for placed in group {
        for (binding, constraint) in placed.rule.constraints.as_slice() {
            let tally = tallies
                .entry(*binding)?
                .or_insert(tally_before(*constraint));
            add(tally, *constraint);
        }
    }
    Ok(tallies)
}

// The binding on which most constraints stand, of those on which they differ.
fn best_binding(alloc: Global, group: &[Placed<'_>]) -> Result<Option<BindingId>, AllocError> {
    let tallies = tallies(alloc, group)?;
    let mut best = None;
    let mut most = 0;
    for (binding, tally) in &tallies {
        if tally.differ && tally.count > most {
            best = Some(*binding);
            most = tally.count;
        }
    }
    Ok(best)
}

/// Chooses by what the rules of a group are told apart: their priorities if these differ, or else the
/// binding on which most constraints stand, of those on which they differ. Any choice would be right. The
/// only error is want of memory.
pub fn choose(alloc: Global, group: &[Placed<'_>]) -> Result<Option<Splitter>, AllocError> {
    if !have_one_priority(group) {
        return Ok(Some(Splitter::Priority));
    }
    match best_binding(alloc, group)? {
        Some(binding) => Ok(Some(Splitter::Binding(binding))),
        None => Ok(None),
    }
}
