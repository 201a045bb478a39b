//! Which functions the trait may have.

ghost use Rattle.std.specs.Prelude.{◌↔◌, IsTrue};
ghost use Rattle.std.specs.List.{AllByRecursion};
ghost use Rattle.isle_tree.specs.WellFormed.{IsTraitFn};

use crate::names::are_tys;
use isle_spelling::{are_identifiers, is_identifier};
use isle_tree::TraitFn;

// Whether the trait may have the function.
fn is_trait_fn(f: &TraitFn) -> bool
    ensures { IsTrue result ↔ IsTraitFn f.now }
{
    if !is_identifier(f.name.as_str()) {
        return false;
    }
    if !are_tys(f.params.as_slice()) {
        return false;
    }
    are_identifiers(f.results.as_slice())
}

/// Tells whether the trait may have all of them.
pub fn are_trait_fns(fns: &[TraitFn]) -> bool
    ensures { IsTrue result ↔ AllByRecursion IsTraitFn fns.now }
{
    for f in fns {
        if !is_trait_fn(f) {
            return false;
        }
    }
    true
}
