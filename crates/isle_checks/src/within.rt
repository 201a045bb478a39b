//! The overlaps within a group of rules.

ghost use Rattle.std.specs.Prelude.{length, OnOk};
ghost use Rattle.isle_checks.specs.declared.placed.Check.TheVariants as found_by;
ghost use Rattle.isle_checks.specs.Lists.{Rises};
ghost use Rattle.isle_checks.specs.Firsts.{AreBelow, Finds};

use crate::notes::compare;
use crate::parts::parted;
use crate::placed::{Check, Placed};
use crate::splitter::{Splitter, choose};
use std::alloc::{AllocError, Global};

/// How many times as many as those with keys the other rules of a group may be, to be told apart as a group of their
/// own: so few such groups stand in one another.
const MOST_OTHERS: usize = 8;

// Notes the overlaps of a group: rules of different keys are not compared.
#[cycle(within)]
fn by_keys<'a>(
    alloc: Global,
    splitter: Splitter,
    group: &[Placed<'a>],
    found: &mut Vec<Option<usize>>,
) -> Result<(), AllocError>
    requires rise { Rises group.now }
    requires below { AreBelow (length found.old.items) group.now }
    ensures { OnOk result
        (Finds found_by.Overlaps group.now group.now found.old.items found.new.items) }
{
    let lists = splitter.lists(alloc, group)?;
    for list in lists.under.values() {
        if list.len() < group.len() {
            within(alloc, list.as_slice(), found)?;
        } else {
            compare(Check::Overlaps, list.as_slice(), list.as_slice(), found);
        }
    }
    compare(Check::Overlaps, lists.rest.as_slice(), group, found);
    compare(Check::Overlaps, group, lists.rest.as_slice(), found);
    Ok(())
}

/// Notes for each rule of a group the first one of it that overlaps it; those that are told apart are not
/// compared. The only error is want of memory.
#[cycle(within)]
pub fn within<'a>(
    alloc: Global,
    group: &[Placed<'a>],
    found: &mut Vec<Option<usize>>,
) -> Result<(), AllocError>
    requires rise { Rises group.now }
    requires below { AreBelow (length found.old.items) group.now }
    ensures { OnOk result
        (Finds found_by.Overlaps group.now group.now found.old.items found.new.items) }
{
    if group.len() < 2 {
        return Ok(());
    }
    let Some(splitter) = choose(alloc, group)? else {
        compare(Check::Overlaps, group, group, found);
        return Ok(());
    };
    let parts = parted(alloc, splitter, group)?;
    let (keyed, others) = (parts.keyed.as_slice(), parts.others.as_slice());
    if others.len() >= group.len() || keyed.len() < others.len() / MOST_OTHERS {
        return by_keys(alloc, splitter, group, found);
    }
    within(alloc, others, found)?;
    compare(Check::Overlaps, others, keyed, found);
    compare(Check::Overlaps, keyed, others, found);
    by_keys(alloc, splitter, keyed, found)
}
