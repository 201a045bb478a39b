//! What is kept of templates. They are counted first, and made only where they are kept with others put in.

ghost use Rattle.std.specs.Prelude.{◌≡◌, List, Option, Some, IfOk, option_map};
ghost use Rattle.isle_core.specs.Pattern.{Pattern as Tree};
ghost use Rattle.isle_core.specs.RuleViews.{pattern as elaborated};
ghost use Rattle.isle_templates.specs.declared.counted.Counted.{Counted};
ghost use Rattle.isle_templates.specs.Standing.{IsKeptAt, IsMade, StandFor};
ghost use Rattle.isle_templates.specs.Substituted.{expanded};

use crate::copies::copied;
use crate::counted::{Counted, MOST_NODES};
use crate::expansion::expanded;
use crate::known::Known;
use crate::levels::levels;
use crate::occurrences::occurrences;
use crate::template::{Kept, Template};
use crate::whole_nodes::whole_nodes;
use isle_core::Pattern;
use std::alloc::{AllocError, Global};

// A template of so few nodes is kept with those that it uses put in.
const FEW_NODES: usize = 16;

// So many levels of templates may be put in where a template is used; one of more is kept with those that it uses put
// in.
const MOST_LEVELS: usize = 256;

// A template with those that it uses put in, if it is kept so: it has few nodes, or many levels.
fn whole(
    alloc: Global,
    written: &Pattern,
    known: Known<'_>,
    nodes: usize,
    levels: usize,
) -> Result<Option<Counted>, AllocError>
    ensures { IfOk result (λ found. (c : Counted) → found ≡ Some c
        → (inner : List (Option Tree)) → StandFor inner known.entry.table.now known.entry.below
        → elaborated c.pattern ≡ expanded inner (elaborated written.now)) }
{
    if nodes <= FEW_NODES || nodes <= MOST_NODES && levels > MOST_LEVELS {
        expanded(alloc, written, known)
    } else {
        Ok(None)
    }
}

// What is kept of a template that is written so, where this is known of those that it uses.
fn kept_with(alloc: Global, written: &Pattern, known: Known<'_>) -> Result<Kept, AllocError>
    ensures { IfOk result (λ kept.
        (inner : List (Option Tree)) → StandFor inner known.entry.table.now known.entry.below
        → IsKeptAt inner known.entry.below (expanded inner (elaborated written.now)) kept) }
{
    let rank = known.below;
    let nodes = whole_nodes(written, known);
    let levels = levels(written, known);
    let times = occurrences(alloc, written, known)?;
    match whole(alloc, written, known, nodes, levels)? {
        None => Ok(Kept {
            pattern: copied(alloc, written)?,
            rank,
            uses: rank,
            levels,
            nodes,
            times,
        }),
        Some(found) => Ok(Kept {
            pattern: found.pattern,
            rank,
            uses: 0,
            levels: 0,
            nodes,
            times,
        }),
    }
}

/// What stands for a term whose template is written so, where this is known of those that it uses. The only error is
/// want of memory.
pub fn made(
    alloc: Global,
    written: &Option<Pattern>,
    known: Known<'_>,
) -> Result<Template, AllocError>
    ensures { IfOk result (λ template.
        (inner : List (Option Tree)) → StandFor inner known.entry.table.now known.entry.below
        → IsMade inner known.entry.below (option_map elaborated written.now) template) }
{
    match written {
        None => Ok(Template::Absent),
        Some(p) => Ok(Template::Present(kept_with(alloc, p, known)?)),
    }
}
