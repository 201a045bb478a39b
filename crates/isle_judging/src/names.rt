//! The names and the types in the heads of functions.

ghost use Rattle.std.specs.Prelude.{◌↔◌, IsTrue};
ghost use Rattle.std.specs.List.{AllByRecursion};
ghost use Rattle.isle_tree.specs.Views.{function};
ghost use Rattle.isle_tree.specs.WellFormed.{IsTermName, IsTy, HasNames};

use isle_spelling::{are_word_bytes, is_identifier};
use isle_tree::{Function, Ty};

/// Tells whether a term may have the name.
pub fn is_term_name(term: &str) -> bool
    ensures { IsTrue result ↔ IsTermName term.now }
{
    are_word_bytes(term.as_bytes())
}

// Whether a parameter may have the type.
fn is_ty(ty: &Ty) -> bool
    ensures { IsTrue result ↔ IsTy ty.now }
{
    is_identifier(ty.name.as_str())
}

/// Tells whether parameters may have the types.
pub fn are_tys(tys: &[Ty]) -> bool
    ensures { IsTrue result ↔ AllByRecursion IsTy tys.now }
{
    for ty in tys {
        if !is_ty(ty) {
            return false;
        }
    }
    true
}

/// Tells whether the names in a function's head may stand there.
pub fn has_names(f: &Function) -> bool
    ensures { IsTrue result ↔ HasNames (function f.now) }
{
    if !is_term_name(f.term.as_str()) {
        return false;
    }
    if !are_tys(f.params.as_slice()) {
        return false;
    }
    is_identifier(f.result.as_str())
}
