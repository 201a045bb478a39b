//! The rules of a group that something tells from others, and those that nothing tells.

ghost use Rattle.std.specs.Prelude.{IfOk, OnOk};
ghost use Rattle.isle_checks.specs.Lists.{Rises};
ghost use Rattle.isle_checks.specs.Parts.{AreParts, JoinsOne};

use crate::placed::Placed;
use crate::splitter::Splitter;
use std::alloc::{AllocError, Global};

/// The rules of a group that have a key, and the others, in their order.
#[derive(Drop)]
pub struct Parts<'a> {
    pub keyed: Vec<Placed<'a>>,
    pub others: Vec<Placed<'a>>,
}

impl<'a> Parts<'a> {
    // Adds a rule to one of them.
    fn push(&mut self, placed: Placed<'a>, has_key: bool) -> Result<(), AllocError>
        ensures { OnOk result (JoinsOne placed.entry self.old.keyed.items self.old.others.items
            self.new.keyed.items self.new.others.items) }
    {
        if has_key {
            self.keyed.push(placed)?;
        } else {
            self.others.push(placed)?;
        }
        Ok(())
    }
}

/// Parts the rules of a group: those that the splitter has a key for, and the others. The only error is want of
/// memory.
pub fn parted<'a>(
    alloc: Global,
    splitter: Splitter,
    group: &[Placed<'a>],
) -> Result<Parts<'a>, AllocError>
    requires { Rises group.now }
    ensures { IfOk result (λ parts. AreParts group.now parts.keyed.items parts.others.items) }
{
    let mut parts = Parts {
        keyed: Vec::new(alloc),
        others: Vec::new(alloc),
    };
    for placed in group {
        parts.push(*placed, splitter.has_key(placed.rule))?;
    }
    Ok(parts)
}
