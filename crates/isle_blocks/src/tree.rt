//! Steps of rules that share their tests.

ghost use Rattle.std.specs.Prelude.{◌≡◌, ◌↔◌, ◌≤◌, ◌<◌, [], IsTrue, IfOk, OnOk, map, length};
ghost use Rattle.isle_core.specs.ArmPlaces.{bound_within};
ghost use Rattle.isle_core.specs.Bindable.{bound_by};
ghost use Rattle.isle_core.specs.Block.{NoArm, Stop};
ghost use Rattle.isle_core.specs.BlockViews as BlockViews;
ghost use Rattle.isle_blocks.specs.Gathered.{AreShort};
ghost use Rattle.isle_blocks.specs.Pushed.{Grows};
ghost use Rattle.isle_blocks.specs.Tables.{ground, shows_in};
ghost use Rattle.isle_blocks.specs.Tree as Tree;
ghost use Rattle.isle_blocks.specs.TreeSteps as Steps;
ghost use Rattle.isle_blocks.specs.Ways.{way, group};

use crate::gathering::{Group, gathered};
use crate::needed::push_needs;
use crate::nest::{bind_places, way_step};
use crate::steps::{arm_with, block_of, match_over, step_of};
use crate::tables::Tables;
use crate::ways::Way;
use isle_core::{BindingId, EvalStep, MatchArm};
use isle_scope::Scope;
use std::alloc::{AllocError, Global};
use std::slice;

// How many of the ways test this source first, up to the first one that doesn't.
fn run_length(ways: &[Way<'_>], source: BindingId) -> usize
    ensures within { result ≤ length ways.now }
    ensures count { result ≡ Steps.run_length source (map way ways.now) }
{
    let mut count = 0;
    for way in ways {
        if !way.tests_first(source) {
            return count;
        }
        count += 1;
    }
    count
}

// Whether nothing follows a way: the term answers once, and nothing of the way is left to be tested.
fn ends(tables: &Tables<'_>, own: &Way<'_>) -> bool
    ensures { IsTrue result ↔ Steps.Ends (ground tables.now) (way own.now) }
{
    !tables.several && own.is_untested()
}

// The step of a way without early tests. What is bound is the same after it.
fn own_step(
    alloc: Global,
    tables: &Tables<'_>,
    bound: &mut Scope,
    own: &Way<'_>,
) -> Result<EvalStep, AllocError>
    ensures step { IfOk result (λ s.
        BlockViews.step s ≡ Tree.way_step (ground tables.now) (way own.now) bound.old) }
    ensures bound { OnOk result (bound.new ≡ bound.old) }
{
    let outer = bound.len();
    let step = way_step(alloc, tables, bound, own)?;
    bound.truncate(outer);
    Ok(step)
}

// The arm of the ways of one constraint. What is bound is the same after it.
#[cycle(tree)]
fn arm_of(
    alloc: Global,
    tables: &Tables<'_>,
    bound: &mut Scope,
    depth: usize,
    of: (BindingId, &Group<'_>),
) -> Result<MatchArm, AllocError>
    requires { AreShort depth (group of.1.now).1 }
    ensures constraint { IfOk result (λ a. (BlockViews.arm a).0 ≡ of.entry.1.now.constraint) }
    ensures places { IfOk result (λ a.
        (BlockViews.arm a).1 ≡ shows_in tables.now of.entry.0 of.entry.1.now.constraint) }
    ensures body { IfOk result (λ a. Tree.IsTree (ground tables.now) (group of.entry.1.now).1
        (bound_within bound.old (shows_in tables.now of.entry.0 of.entry.1.now.constraint))
        (BlockViews.arm a).2) }
    ensures bound { OnOk result (bound.new ≡ bound.old) }
{
    let (source, gathered) = of;
    let places = tables.places(alloc, source, gathered.constraint)?;
    let outer = bound.len();
    bind_places(bound, places.as_slice())?;
    let steps = steps_of(alloc, tables, bound, depth, gathered.ways.as_slice())?;
    bound.truncate(outer);
    Ok(arm_with(gathered.constraint, places, block_of(steps)))
}

// The arms of ways that test one source first, one for each constraint. What is bound is the same after them.
#[cycle(tree)]
fn arms_of(
    alloc: Global,
    tables: &Tables<'_>,
    bound: &mut Scope,
    depth: usize,
    of: (BindingId, &[Way<'_>]),
) -> Result<Vec<MatchArm>, AllocError>
    requires { Steps.AreLeftShort depth (map way of.1.now) }
    ensures arms { IfOk result (λ arms. Steps.HaveArms (ground tables.now) of.entry.0
        (map way of.entry.1.now) bound.old
        (Steps.arms_before (map BlockViews.arm arms.items) NoArm)) }
    ensures bound { OnOk result (bound.new ≡ bound.old) }
{
    let (source, ways) = of;
    let groups = gathered(alloc, ways)?;
    let mut arms = Vec::new(alloc);
    for gathered in &groups {
        arms.push(arm_of(alloc, tables, bound, depth, (source, gathered))?)?;
    }
    Ok(arms)
}

// The step of ways that test one source first: a match over it. What it is read with stays bound.
#[cycle(tree)]
fn shared_step(
    alloc: Global,
    tables: &Tables<'_>,
    bound: &mut Scope,
    depth: usize,
    of: (BindingId, &[Way<'_>]),
) -> Result<EvalStep, AllocError>
    requires { Steps.AreLeftShort depth (map way of.1.now) }
    ensures step { IfOk result (λ s. Steps.IsShared (ground tables.now) of.entry.0
        (map way of.entry.1.now) bound.old (BlockViews.step s)) }
    ensures bound { OnOk result (bound.new
        ≡ bound_by bound.old (Tree.source_needs (ground tables.now) bound.old of.entry.0)) }
{
    let (source, ways) = of;
    let mut order = Vec::new(alloc);
    push_needs(tables.bindings, bound, slice::from_ref(&source), &mut order)?;
    let arms = arms_of(alloc, tables, bound, depth, (source, ways))?;
    Ok(step_of(order, match_over(source, arms)))
}

// The first step of ways, and how many of them it serves.
#[cycle(tree)]
fn next_step(
    alloc: Global,
    tables: &Tables<'_>,
    bound: &mut Scope,
    depth: usize,
    ways: &[Way<'_>],
) -> Result<(EvalStep, usize), AllocError>
    requires some { 0 < length ways.now }
    requires short { AreShort depth (map way ways.now) }
    ensures count { IfOk result (λ next. (0 < next.1) × (next.1 ≤ length ways.now)) }
    ensures step { IfOk result (λ next. Steps.LeadsOn (ground tables.now) (map way ways.now)
        next.1 bound.old bound.new (BlockViews.step next.0)) }
    ensures last { IfOk result (λ next. Steps.MayEnd (ground tables.now) (map way ways.now)
        bound.old (BlockViews.step next.0)) }
    ensures grows { OnOk result (Grows bound.old bound.new) }
{
    match ways[0].early.first() {
        None => Ok((own_step(alloc, tables, bound, &ways[0])?, 1)),
        Some((source, _)) => {
            let count = run_length(ways, *source);
            let run = (*source, &ways[..count]);
            Ok((shared_step(alloc, tables, bound, depth - 1, run)?, count))
        }
    }
}

/// Makes the steps of ways: neighbours that test one source first share a match, and each other one has a step of its
/// own. Of a term that answers once nothing follows a way without tests. What they are read with stays bound. The only
/// error is want of memory.
#[cycle(tree)]
pub fn steps_of(
    alloc: Global,
    tables: &Tables<'_>,
    bound: &mut Scope,
    depth: usize,
    ways: &[Way<'_>],
) -> Result<Vec<EvalStep>, AllocError>
    requires { AreShort depth (map way ways.now) }
    ensures tree { IfOk result (λ steps. Tree.IsTree (ground tables.now) (map way ways.now)
        bound.old (Steps.steps_before (map BlockViews.step steps.items) Stop)) }
    ensures grows { OnOk result (Grows bound.old bound.new) }
{
    let mut steps = Vec::new(alloc);
    let mut made = 0;
    while made < ways.len() {
        let next = next_step(alloc, tables, bound, depth, &ways[made..])?;
        steps.push(next.0)?;
        if ends(tables, &ways[made]) {
            return Ok(steps);
        }
        made += next.1;
    }
    Ok(steps)
}
