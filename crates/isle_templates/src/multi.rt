//! Which terms are `multi` where a pattern uses them.

ghost use Rattle.std.specs.Prelude.{◌≡◌, ℕ, false, length, IfOk};
ghost use Rattle.isle_templates.specs.Uses.{uses};
ghost use Rattle.isle_templates.specs.Written.{written_of};
ghost use Rattle.isle_walks.specs.Walks.{on_closed_walk, IsOrder};
ghost use Rattle.isle_templates.specs.Multi.{AreMultisTold};

use crate::multi_uses::multi_by;
use isle_core::{List, Pattern};
use isle_walks::order;
use std::alloc::{AllocError, Global};

// Of each term whether it is `multi` where a pattern uses it, by an order in which each comes after those that its
// template uses.
fn told(written: &[Option<Pattern>], flags: Vec<bool>, order: &[usize]) -> Vec<bool>
    requires order { IsOrder (uses (written_of written.now)) order.now }
    requires flags { length flags.items ≡ length written.now }
    ensures { AreMultisTold (written_of written.now) flags.items result.items }
{
    let mut table = flags;
    for term in order {
        let flag = table[*term];
        let made = multi_by(&written[*term], flag, table.as_slice());
        table[*term] = made;
    }
    table
}

/// Tells of each term whether it is `multi` where a pattern uses it, by the templates as they are written, by which of
/// them use which, and by whether declarations say so (`specs/Multi.antt`). The only error is want of memory.
pub fn multi_extractors(
    alloc: Global,
    graph: &[List<usize>],
    written: &[Option<Pattern>],
    flags: Vec<bool>,
) -> Result<Vec<bool>, AllocError>
    requires graph { graph.now ≡ uses (written_of written.now) }
    requires free { (term : ℕ) → on_closed_walk (uses (written_of written.now)) term ≡ false }
    requires flags { length flags.items ≡ length written.now }
    ensures { IfOk result (λ found.
        AreMultisTold (written_of written.now) flags.items found.items) }
{
    match order(alloc, graph)? {
        None => unreachable!(),
        Some(order) => Ok(told(written, flags, order.as_slice())),
    }
}
