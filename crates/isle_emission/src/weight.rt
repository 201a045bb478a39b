//! How heavy a block is.

ghost use Rattle.std.specs.Prelude.{◌≡◌, min};
ghost use Rattle.isle_core.specs.BlockViews as BlockViews;
ghost use Rattle.isle_simulation.specs.BlockWeight as BlockWeight;

use isle_core::{Block, ControlFlow};

// Returns how many steps a step has in it, or the most if they are more.
#[cycle(weight)]
#[tactic(auto, using(isle_core::proofs::SeesBlocks::sees_blocks))]
fn within_up_to(control: &ControlFlow, most: usize) -> usize
    ensures { result ≡ min (BlockWeight.steps_within (BlockViews.control control.now)) most }
{
    match control {
        ControlFlow::Match { arms, .. } => {
            let mut weight = 0;
            for arm in arms.as_slice() {
                if weight == most {
                    return most;
                }
                weight += weight_up_to(&arm.body, most - weight);
            }
            weight
        }
        ControlFlow::Equal { body, .. } | ControlFlow::Loop { body, .. } => {
            weight_up_to(body, most)
        }
        ControlFlow::Return { .. } => 0,
    }
}

/// Returns how many steps a block has, those of bodies in it too, or the most if they are more. No more steps than
/// that are looked at.
#[cycle(weight)]
#[tactic(auto, using(isle_core::proofs::SeesBlocks::sees_blocks))]
pub fn weight_up_to(block: &Block, most: usize) -> usize
    ensures { result ≡ min (BlockWeight.steps_in (BlockViews.block block.now)) most }
{
    let mut weight = 0;
    for step in block.steps.as_slice() {
        if weight == most {
            return most;
        }
        weight += 1;
        weight += within_up_to(&step.check, most - weight);
    }
    weight
}

/// Returns the weight of a block: one for each of its steps, those of bodies in it too, or the largest number if they
/// are more. It takes no memory.
pub fn block_weight(block: &Block) -> usize
    ensures { result ≡ BlockWeight.block_weight (BlockViews.block block.now) }
{
    weight_up_to(block, usize::MAX)
}
