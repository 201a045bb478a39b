//! The names that stand for values in functions, as a set.

ghost use Rattle.std.specs.Prelude.{◌≡◌, ℕ, List, map, IfOk};
ghost use Rattle.isle_tree.specs.Views.{function};
ghost use Rattle.isle_operand_names.specs.Names.{function_names, is_among};
ghost use Rattle.isle_operand_names.specs.Sets.{has_name};

use crate::names::push_names;
use crate::sets::set_of;
use isle_tree::Function;
use std::alloc::{AllocError, Global};
use std::collections::BTreeSet;

/// Gathers the names that stand in functions. The only error is want of memory.
pub fn standing<'p>(alloc: Global, fns: &'p [Function]) -> Result<BTreeSet<&'p str>, AllocError>
    ensures { IfOk result (λ found.
        (name : List ℕ)
        → has_name found name ≡ is_among name (function_names (map function fns.now))) }
{
    let mut names = Vec::new(alloc);
    for f in fns {
        push_names(&mut names, f.body.as_slice())?;
    }
    set_of(alloc, names.as_slice())
}
