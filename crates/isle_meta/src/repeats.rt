//! Names that repeat.

ghost use Rattle.std.specs.Prelude.{◌≡◌, ◌++◌, List, ℕ, IfOk, OnOk};
ghost use Rattle.isle_lawful_names.specs.NameSet.{HasNames};
ghost use Rattle.isle_meta.specs.TableNames.{repeats, repeats_after, texts};

use isle_core::Text;
use isle_lawful_names::added;
use std::alloc::{AllocError, Global};
use std::collections::BTreeSet;

/// Tells whether a name stands among these twice. The only error is want of memory.
pub fn has_repeat(alloc: Global, names: &[&str]) -> Result<bool, AllocError>
    ensures { IfOk result (λ found. found ≡ repeats (texts names.now)) }
{
    let mut met = BTreeSet::new(alloc);
    for name in names {
        let fresh = added(&mut met, name)?;
        if !fresh {
            return Ok(true);
        }
    }
    Ok(false)
}

/// Tells whether one of the terms is among the earlier ones, whose names `met` has, or repeats one before it. They are
/// added to `met`. The only error is want of memory.
pub fn has_repeated_term<'t>(
    terms: &'t [Text],
    met: &mut BTreeSet<&'t str>,
) -> Result<bool, AllocError>
    ensures told { (earlier : List (List ℕ)) → HasNames earlier met.old
        → IfOk result (λ found. found ≡ repeats_after earlier terms.now) }
    ensures met { (earlier : List (List ℕ)) → HasNames earlier met.old
        → OnOk result (HasNames (earlier ++ terms.now) met.new) }
{
    let mut found = false;
    for term in terms {
        let fresh = added(met, term.as_str())?;
        found = found | !fresh;
    }
    Ok(found)
}
