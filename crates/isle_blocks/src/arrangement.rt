//! Rules and their tests in the order in which a tree has them.

ghost use Rattle.std.specs.Prelude.{◌≡◌, IfOk, OnOk, List as ListOf, map};
ghost use Rattle.std.specs.List.Sorted.{IsPermutation};
ghost use Rattle.isle_core.specs.Path.{paths_of};
ghost use Rattle.isle_core.specs.declared.rule_sets.FlatRule.{FlatRule as Rule};
ghost use Rattle.isle_blocks.specs.Arranged as Arrangement;
ghost use Rattle.isle_blocks.specs.Order.{Falls};
ghost use Rattle.isle_blocks.specs.Ways as Ways;

use crate::tables::Tables;
use crate::turns::{rank, turns_of};
use crate::ways::{Parted, Way};
use isle_core::{BindingId, Constraint, FlatRule};
use std::alloc::{AllocError, Global};
use std::cmp::Reverse;

/// A rule with its tests in the order in which they are made, the early ones by their sources' ranks.
#[derive(Drop)]
pub struct Arranged<'r> {
    pub rule: &'r FlatRule,
    pub ranks: Vec<u128>,
    pub early: Vec<(BindingId, Constraint)>,
    pub late: &'r [(BindingId, Constraint)],
}

// The ranks by which ways are ordered: those of the sources of their early tests, and then one above all, so that of
// ways that begin alike the ones that test more stand first. Without turns there is one way, and no order to be found.
fn ranks_of(
    alloc: Global,
    turns: &[usize],
    early: &[(BindingId, Constraint)],
) -> Result<Vec<u128>, AllocError> {
    let mut ranks = Vec::new(alloc);
    if turns.is_empty() {
        return Ok(ranks);
    }
    for (source, _) in early {
        ranks.push(rank(turns, *source))?;
    }
    ranks.push(u128::MAX)?;
    Ok(ranks)
}

// Puts the early tests of a way in the order of their sources' ranks.
fn arrange_way<'p>(
    alloc: Global,
    turns: &[usize],
    way: &'p Parted<'_>,
) -> Result<Arranged<'p>, AllocError>
    ensures { IfOk result (λ a.
        Arrangement.IsArranged turns.now (Ways.parted_way way.now) (Arrangement.arranged_way a)) }
{
    let mut early = Vec::from_slice(alloc, way.early.as_slice())?;
    early.sort_by_key(|(source, _)| rank(turns, *source))?;
    Ok(Arranged {
        rule: way.rule,
        ranks: ranks_of(alloc, turns, early.as_slice())?,
        early,
        late: way.late.as_slice(),
    })
}

// Arranges each of the ways.
fn arrange_ways<'p>(
    alloc: Global,
    turns: &[usize],
    ways: &'p [Parted<'_>],
) -> Result<Vec<Arranged<'p>>, AllocError>
    ensures { IfOk result (λ all. Arrangement.AreEachArranged turns.now
        (map Ways.parted_way ways.now) (map Arrangement.arranged_way all.items)) }
{
    let mut all = Vec::new(alloc);
    for way in ways {
        let arranged = arrange_way(alloc, turns, way)?;
        all.push(arranged)?;
    }
    Ok(all)
}

// Sorts ways by priority, the highest first, and those of one priority by what they test.
fn sort_ways(all: &mut Vec<Arranged<'_>>) -> Result<(), AllocError>
    ensures permutation { IsPermutation all.old.items all.new.items }
    ensures falls { OnOk result
        (Falls (Arrangement.rules_of (map Arrangement.arranged_way all.new.items))) }
{
    all.sort_by(|one, other| one.ranks.cmp(&other.ranks))?;
    all.sort_by_key(|one| Reverse(one.rule.prio))?;
    Ok(())
}

/// Arranges rules whose tests are parted: the highest priority first, and those of one priority by what they test; each
/// with its early tests by their sources' ranks. The only error is want of memory.
pub fn arrange_rules<'p>(
    alloc: Global,
    tables: &Tables<'_>,
    ways: &'p [Parted<'_>],
) -> Result<Vec<Arranged<'p>>, AllocError>
    ensures { IfOk result (λ all. (fs : ListOf Rule) → map Ways.parted_way ways.now
        ≡ map (Ways.way_of tables.now.several (paths_of tables.now.bindings.now)) fs
        → Arrangement.AreArranged tables.now.several tables.now.bindings.now fs
        (map Arrangement.arranged_way all.items)) }
{
    let turns = turns_of(alloc, tables.bindings, ways)?;
    let mut all = arrange_ways(alloc, turns.as_slice(), ways)?;
    sort_ways(&mut all)?;
    Ok(all)
}

/// Returns the ways of rules that are arranged, in order. The only error is want of memory.
pub fn ways_in<'a>(alloc: Global, all: &'a [Arranged<'_>]) -> Result<Vec<Way<'a>>, AllocError>
    ensures { IfOk result (λ ways. map Ways.way ways.items ≡ map Arrangement.arranged_way all.now) }
{
    let mut ways = Vec::new(alloc);
    for one in all {
        ways.push(Way {
            rule: one.rule,
            early: one.early.as_slice(),
            late: one.late,
        })?;
    }
    Ok(ways)
}
