//! Sets of names.

ghost use Rattle.std.specs.Prelude.{◌≡◌, ℕ, List, map, IfOk};
ghost use Rattle.isle_operand_names.specs.Names.{is_among};
ghost use Rattle.isle_operand_names.specs.Sets.{has_name};

use std::alloc::{AllocError, Global};
use std::collections::BTreeSet;

/// Makes the set of names. The only error is want of memory.
pub fn set_of<'p>(alloc: Global, names: &[&'p str]) -> Result<BTreeSet<&'p str>, AllocError>
    ensures { IfOk result (λ found.
        (name : List ℕ) → has_name found name ≡ is_among name (map (λ x. x.now) names.now)) }
{
    let mut found = BTreeSet::new(alloc);
    for name in names {
        found.insert(*name)?;
    }
    Ok(found)
}
