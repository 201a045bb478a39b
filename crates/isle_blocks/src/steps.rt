//! Steps and what they do.

ghost use Rattle.std.specs.Prelude.{◌≡◌, IfOk, map};
ghost use Rattle.isle_core.specs.Block as Blocks;
ghost use Rattle.isle_core.specs.BlockViews as BlockViews;
ghost use Rattle.isle_blocks.specs.Nest as Nest;

use isle_core::{BindingId, Block, Constraint, ControlFlow, EvalStep, List, MatchArm, Pos};
use std::alloc::{AllocError, Global};

/// A step.
#[tactic(auto, using(isle_core::proofs::SeesBlocks::sees_blocks))]
pub fn step_of(order: Vec<BindingId>, check: ControlFlow) -> EvalStep
    ensures { BlockViews.step result ≡ (order.items, BlockViews.control check) }
{
    EvalStep {
        bind_order: List::new(order),
        check,
    }
}

/// A block of steps.
#[tactic(auto, using(isle_core::proofs::SeesBlocks::sees_blocks))]
pub fn block_of(steps: Vec<EvalStep>) -> Block
    ensures { BlockViews.block result
        ≡ BlockViews.block_of (map BlockViews.step steps.items) }
{
    Block {
        steps: List::new(steps),
    }
}

/// An arm, whose places are bound in its block.
#[tactic(auto, using(isle_core::proofs::SeesBlocks::sees_blocks))]
pub fn arm_with(constraint: Constraint, places: Vec<Option<BindingId>>, body: Block) -> MatchArm
    ensures { BlockViews.arm result ≡ (constraint, places.items, BlockViews.block body) }
{
    MatchArm {
        constraint,
        bindings: List::new(places),
        body,
    }
}

/// A match of arms.
#[tactic(auto, using(isle_core::proofs::SeesBlocks::sees_blocks))]
pub fn match_over(source: BindingId, arms: Vec<MatchArm>) -> ControlFlow
    ensures { BlockViews.control result
        ≡ Blocks.Match source (BlockViews.arms_of (map BlockViews.arm arms.items)) }
{
    ControlFlow::Match {
        source,
        arms: List::new(arms),
    }
}

// A block of one step.
fn alone(alloc: Global, step: EvalStep) -> Result<Block, AllocError>
    ensures { IfOk result (λ b. BlockViews.block b ≡ Nest.alone (BlockViews.step step)) }
{
    let steps = vec![in alloc; step]?;
    Ok(block_of(steps))
}

/// A match of one arm, whose places are bound round what follows it. The only error is want of memory.
pub fn match_step(
    alloc: Global,
    source: BindingId,
    constraint: Constraint,
    places: Vec<Option<BindingId>>,
    inner: EvalStep,
) -> Result<ControlFlow, AllocError>
    ensures { IfOk result (λ c.
        BlockViews.control c
        ≡ Blocks.Match source
        (Blocks.Arm constraint places.items (Nest.alone (BlockViews.step inner)) Blocks.NoArm)) }
{
    let body = alone(alloc, inner)?;
    let arms = vec![in alloc; arm_with(constraint, places, body)]?;
    Ok(match_over(source, arms))
}

/// An equality round what follows it. The only error is want of memory.
#[tactic(auto, using(isle_core::proofs::SeesBlocks::sees_blocks))]
pub fn equal_step(
    alloc: Global,
    a: BindingId,
    b: BindingId,
    inner: EvalStep,
) -> Result<ControlFlow, AllocError>
    ensures { IfOk result (λ c.
        BlockViews.control c ≡ Blocks.Equal a b (Nest.alone (BlockViews.step inner))) }
{
    let body = alone(alloc, inner)?;
    Ok(ControlFlow::Equal { a, b, body })
}

/// A loop over the items of a list round what is done with each. The only error is want of memory.
#[tactic(auto, using(isle_core::proofs::SeesBlocks::sees_blocks))]
pub fn loop_step(alloc: Global, item: BindingId, inner: EvalStep) -> Result<ControlFlow, AllocError>
    ensures { IfOk result (λ c.
        BlockViews.control c ≡ Blocks.Loop item (Nest.alone (BlockViews.step inner))) }
{
    let body = alone(alloc, inner)?;
    Ok(ControlFlow::Loop { result: item, body })
}

/// A return.
#[tactic(auto, using(isle_core::proofs::SeesBlocks::sees_blocks))]
pub fn return_step(pos: Pos, value: BindingId) -> ControlFlow
    ensures { BlockViews.control result ≡ Blocks.Return pos value }
{
    ControlFlow::Return { pos, result: value }
}
