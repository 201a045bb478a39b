//! The function of a term.

ghost use Rattle.std.specs.Prelude.{◌≡◌, map, option_map};
ghost use Rattle.isle_tree.specs.Run.{function_of};
ghost use Rattle.isle_tree.specs.Views.{function};

use isle_spelling::is_same;
use isle_tree::Function;

/// Returns the function of a term.
pub fn function_of<'p>(fns: &'p [Function], term: &str) -> Option<&'p Function>
    ensures { option_map (λ f. function f.now) result
        ≡ function_of term.now (map function fns.now) }
{
    for f in fns {
        if is_same(term, f.term.as_str()) {
            return Some(f);
        }
    }
    None
}
