//! The block of a rule set.

ghost use Rattle.std.specs.Prelude.{◌≡◌, IfOk, true, false, List as ListOf, map};
ghost use Rattle.std.specs.List.{AllByRecursion};
ghost use Rattle.isle_core.specs.declared.types.ReturnKind.{ReturnKind};
ghost use Rattle.isle_core.specs.declared.types.Term.{Term};
ghost use Rattle.isle_core.specs.Value.{Value};
ghost use Rattle.isle_core.specs.Meaning.{Meaning};
ghost use Rattle.isle_core.specs.ApartTests.{AreTestsApart};
ghost use Rattle.isle_core.specs.Calling.{is_several, kind_of};
ghost use Rattle.isle_core.specs.Rule.{Environment};
ghost use Rattle.isle_core.specs.Path.{paths_of};
ghost use Rattle.isle_core.specs.RuleSet.{set_outcome};
ghost use Rattle.isle_core.specs.BlockViews as BlockViews;
ghost use Rattle.isle_core.specs.BlockRun.{block_outcome};
ghost use Rattle.isle_core.specs.BlockLawful.{IsLawfulBlock};
ghost use Rattle.isle_core.specs.Serializable.{IsSerializable};
ghost use Rattle.isle_core.specs.Setting.{setting};
ghost use Rattle.isle_blocks.specs.ApartRules.{AreRulesApart};
ghost use Rattle.isle_blocks.specs.Arranged.{IsGrown};
ghost use Rattle.isle_blocks.specs.Gathered.{AreShort};
ghost use Rattle.isle_blocks.specs.Tables.{ground};
ghost use Rattle.isle_blocks.specs.Ways as Ways;
ghost use Rattle.isle_blocks.specs.CallsOnce.{HasCallsOnce};
ghost use Rattle.isle_blocks.specs.Merged.{IsMerged};
ghost use Rattle.isle_blocks.specs.LoopsApart.{HasLoopsApart};
ghost use Rattle.isle_blocks.specs.RuleTests.{TestsRules};
ghost use Rattle.isle_blocks.specs.AllTests.{MakesTests};
ghost use Rattle.isle_blocks.specs.AllReturns.{MakesReturns};
ghost use Rattle.isle_blocks.specs.Several.{HasItsLists, GivesSeveral};
ghost use Rattle.isle_blocks.specs.LoopFree.{HasNoLoop};
ghost use Rattle.isle_blocks.specs.RuleReads.{OrdersCallsOnce};
ghost use Rattle.isle_blocks.specs.AskedBound.{AsksAtMost};

use crate::arrangement::{arrange_rules, ways_in};
use crate::fields::fields_of;
use crate::followers::{Following, followers_of};
use crate::free::free_of;
use crate::steps::block_of;
use crate::tables::Tables;
use crate::tree::steps_of;
use crate::ways::{Way, part_rules};
use isle_core::{Block, FlatRule, OutOfMemory, RuleSet};
use isle_scope::Scope;
use std::alloc::{AllocError, Global};

// The greatest number of early tests of a way.
fn depth_of(ways: &[Way<'_>]) -> usize
    ensures { AreShort result (map Ways.way ways.now) }
{
    let mut depth = 0;
    for way in ways {
        depth = depth.max(way.early.len());
    }
    depth
}

// Makes the block of rules, highest priority first.
fn tree_of(alloc: Global, tables: &Tables<'_>, rules: &[FlatRule]) -> Result<Block, AllocError>
    ensures { IfOk result (λ b. IsGrown (ground tables.now) rules.now (BlockViews.block b)) }
{
    let free = free_of(alloc, tables.bindings)?;
    let parted = part_rules(alloc, tables.several, free.as_slice(), rules)?;
    let arranged = arrange_rules(alloc, tables, parted.as_slice())?;
    let ways = ways_in(alloc, arranged.as_slice())?;
    let mut bound = Scope::new(alloc);
    let depth = depth_of(ways.as_slice());
    let steps = steps_of(alloc, tables, &mut bound, depth, ways.as_slice())?;
    Ok(block_of(steps))
}

/// Makes the block of a rule set: rules from the highest priority down, those of one priority in an order in which they
/// share most tests, neighbours that test one thing first sharing a match over it. If the term isn't `multi`, the first
/// rule that holds is taken (`isle_core/specs/BlockRun.antt`); `iterator` says that it is, and then each rule adds its
/// results, its lists being gone through in loops of its own (`isle_core/specs/SeveralRun.antt`), in which stands no
/// match that reads none of their items (`isle_blocks/specs/LoopsApart.antt`). A rule's calls are made after its tests,
/// in order. What the block gives is promised if at most one holds of the constraints that rules put on one path
/// (`isle_core/specs/ApartTests.antt`), and if the term isn't `multi` also of the rules of one priority
/// (`isle_blocks/specs/ApartRules.antt`). A block without loops has at most as many calls of extractors and pure terms
/// as its rules read paths, the different ones of each rule added up (`isle_blocks/specs/AskedBound.antt`). The only
/// error is want of memory.
pub fn serialize(alloc: Global, rules: &RuleSet, iterator: bool) -> Result<Block, OutOfMemory>
    ensures means { IfOk result (λ b.
        (env : Environment) (m : Meaning) (t : Term) (args : ListOf Value) (kind : ReturnKind) →
        IsSerializable env t rules.now → is_several (kind_of t.kind) ≡ iterator
        → is_several (kind_of t.kind) ≡ false →
        AreTestsApart env m args rules.now → AreRulesApart env m args rules.now →
        block_outcome env m args (paths_of rules.now.bindings) (BlockViews.block b) kind ≡
        set_outcome env m args (paths_of rules.now.bindings) rules.now.rules kind) }
    ensures tests { IfOk result (λ b. TestsRules rules.now (BlockViews.block b)) }
    ensures makes { IfOk result (λ b. MakesTests iterator rules.now (BlockViews.block b)) }
    ensures returns { IfOk result (λ b. MakesReturns iterator rules.now (BlockViews.block b)) }
    ensures lawful { IfOk result (λ b.
        (env : Environment) (t : Term) → IsSerializable env t rules.now →
        (is_several (kind_of t.kind) ≡ true →
        AllByRecursion (HasCallsOnce env (paths_of rules.now.bindings)) rules.now.rules) →
        is_several (kind_of t.kind) ≡ iterator →
        IsLawfulBlock (setting env t rules.now.bindings) (BlockViews.block b)) }
    ensures several { IfOk result (λ b.
        (env : Environment) (t : Term) → IsSerializable env t rules.now →
        is_several (kind_of t.kind) ≡ iterator → is_several (kind_of t.kind) ≡ true →
        AllByRecursion (HasItsLists env (paths_of rules.now.bindings)) rules.now.rules →
        GivesSeveral env rules.now (BlockViews.block b)) }
    ensures merged { IfOk result (λ b.
        (env : Environment) (t : Term) → IsSerializable env t rules.now →
        is_several (kind_of t.kind) ≡ iterator → IsMerged (BlockViews.block b)) }
    ensures once_merged { IfOk result (λ b. iterator ≡ false → IsMerged (BlockViews.block b)) }
    ensures loops { IfOk result (λ b. HasLoopsApart rules.now (BlockViews.block b)) }
    ensures asks { IfOk result (λ b.
        (env : Environment) (t : Term) → IsSerializable env t rules.now →
        is_several (kind_of t.kind) ≡ iterator →
        AllByRecursion (OrdersCallsOnce env (paths_of rules.now.bindings)) rules.now.rules →
        (iterator ≡ true → HasNoLoop (BlockViews.block b)) →
        AsksAtMost env rules.now (BlockViews.block b)) }
{
    let fields = fields_of(alloc, rules.bindings.as_slice())?;
    let inners = followers_of(alloc, rules.bindings.as_slice(), Following::Inner)?;
    let items = followers_of(alloc, rules.bindings.as_slice(), Following::Item)?;
    let tables = Tables {
        several: iterator,
        bindings: rules.bindings.as_slice(),
        fields: &fields,
        inners: &inners,
        items: &items,
    };
    Ok(tree_of(alloc, &tables, rules.rules.as_slice())?)
}
