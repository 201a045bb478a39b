//! Names in ascending order, each once.

ghost use Rattle.std.specs.Prelude.{◌≡◌, IfOk, OnOk};
ghost use Rattle.std.specs.BTreeSet.{insert_key};
ghost use Rattle.std.specs.Cmp.Lexicographic.{slice_cmp};
ghost use Rattle.std.specs.Ordering.{nat_cmp};
ghost use Rattle.isle_prelude.specs.Ascending.{ascending};
ghost use Rattle.isle_prelude.specs.Lent.{lent};

use isle_core::Text;
use std::alloc::{AllocError, Global};
use std::collections::BTreeSet;

/// Puts a name into a set, unless it is there. The only error is want of memory.
pub fn put<'t>(names: &mut BTreeSet<&'t str>, name: &'t str) -> Result<(), AllocError>
    ensures { OnOk result
        (lent names.new.keys ≡ insert_key (slice_cmp nat_cmp) (lent names.old.keys) name.now) }
{
    let _is_new = names.insert(name)?;
    Ok(())
}

/// Returns names in ascending order, each once. The only error is want of memory.
pub fn ascending<'t>(alloc: Global, given: &'t [Text]) -> Result<BTreeSet<&'t str>, AllocError>
    ensures { IfOk result (λ found. lent found.keys ≡ ascending given.now) }
{
    let mut names = BTreeSet::new(alloc);
    for name in given {
        put(&mut names, name.as_str())?;
    }
    Ok(names)
}
