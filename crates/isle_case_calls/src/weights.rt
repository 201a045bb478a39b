//! What blocks weigh, each with a result within so many tests of equality.

use isle_case_reading::shown::{digit, push_all};
use isle_codegen::block_weight;
use isle_core::{BindingId, Block, ControlFlow, EvalStep, List, Pos};
use std::alloc::{AllocError, Global};

// A block of one step, which does this and binds nothing.
fn one_step(alloc: Global, check: ControlFlow) -> Result<Block, AllocError> {
    let bind_order = List::new(Vec::new(alloc));
    let step = EvalStep { bind_order, check };
    Ok(Block {
        steps: List::new(vec![in alloc; step]?),
    })
}

// A block that gives a result within so many tests.
fn tested(alloc: Global, count: usize) -> Result<Block, AllocError> {
    let result = BindingId(0);
    let pos = Pos { file: 0, offset: 0 };
    let mut block = one_step(alloc, ControlFlow::Return { pos, result })?;
    for _ in 0..count {
        let (a, b) = (result, result);
        block = one_step(alloc, ControlFlow::Equal { a, b, body: block })?;
    }
    Ok(block)
}

/// Writes the weights of three blocks.
pub fn push_weights(alloc: Global, lines: &mut String) -> Result<(), AllocError> {
    lines.push_str("weights")?;
    for count in 0..3 {
        let block = tested(alloc, count)?;
        push_all(lines, &[" ", digit(block_weight(&block))])?;
    }
    lines.push_str("\n")
}
