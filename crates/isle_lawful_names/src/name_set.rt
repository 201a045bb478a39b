//! Names that were met before.

ghost use Rattle.std.specs.Prelude.{◌↔◌, ◌++◌, ◌∷◌, [], ℕ, List, Contains, IfOk, OnOk, IsTrue};
ghost use Rattle.isle_lawful_names.specs.NameSet.{HasNames};

use std::alloc::AllocError;
use std::collections::BTreeSet;

/// Puts a name into a set, and tells whether it was new there. The only error is want of memory.
pub fn added<'a>(names: &mut BTreeSet<&'a str>, name: &'a str) -> Result<bool, AllocError>
    ensures fresh { (earlier : List (List ℕ)) → HasNames earlier names.old
        → IfOk result (λ fresh. IsTrue fresh ↔ (Contains earlier name.now → ⊥)) }
    ensures more { (earlier : List (List ℕ)) → HasNames earlier names.old
        → OnOk result (HasNames (earlier ++ name.now ∷ []) names.new) }
{
    Ok(names.insert(name)?)
}

/// Tells whether a set does not have a name.
pub fn is_new(names: &BTreeSet<&str>, name: &str) -> bool
    ensures { (earlier : List (List ℕ)) → HasNames earlier names.now
        → IsTrue result ↔ (Contains earlier name.now → ⊥) }
{
    !names.contains(name)
}
