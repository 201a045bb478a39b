//! The templates of ranks below one.

ghost use Rattle.std.specs.Prelude.{◌≡◌, option_map};
ghost use Rattle.isle_templates.specs.Standing.{kept_of};

use crate::template::{Kept, Template};
use isle_core::TermId;

/// What is kept for each term, of which only templates of lower ranks than one are looked at.
#[derive(Clone, Copy)]
pub struct Known<'a> {
    pub table: &'a [Template],
    pub below: usize,
}

/// The template of a term, if it has one of a rank that is low enough.
pub fn kept_of<'a>(known: Known<'a>, term: TermId) -> Option<&'a Kept>
    ensures { option_map (λ x. x.now) result ≡ kept_of known.entry.table.now known.entry.below term }
{
    match known.table.get(term.index()) {
        None => None,
        Some(Template::Absent) => None,
        Some(Template::Present(kept)) => {
            if kept.rank < known.below {
                Some(kept)
            } else {
                None
            }
        }
    }
}

/// The templates of lower ranks than this.
pub fn lower<'a>(known: Known<'a>, rank: usize) -> Known<'a>
    ensures table { result.table.now ≡ known.entry.table.now }
    ensures below { result.below ≡ rank }
{
    Known {
        table: known.table,
        below: rank,
    }
}
