//! Templates with no other template in them.

ghost use Rattle.std.specs.Prelude.{◌≡◌, List, Option, IfOk, length, map};
ghost use Rattle.isle_core.specs.declared.rules.Pattern.{Pattern as CodePattern};
ghost use Rattle.isle_core.specs.Pattern.{Pattern as Tree};
ghost use Rattle.isle_core.specs.RuleViews.{pattern as elaborated};
ghost use Rattle.isle_walks.specs.Walks.{IsOrder};
ghost use Rattle.isle_templates.specs.declared.template.Template.TheVariants.{Absent};
ghost use Rattle.isle_templates.specs.Elaborated.{IsExpanded};
ghost use Rattle.isle_templates.specs.Standing.{StandFor};
ghost use Rattle.isle_templates.specs.Substituted.{whole_templates};
ghost use Rattle.isle_templates.specs.Uses.{uses};
ghost use Rattle.isle_templates.specs.Whole.{AreWhole, AreWholeFound};
ghost use Rattle.isle_templates.specs.Written.{written_of};

use crate::expansion::expanded;
use crate::keeping::made;
use crate::known::Known;
use crate::template::Template;
use crate::uses::uses;
use isle_core::Pattern;
use isle_walks::order;
use std::alloc::{AllocError, Global};

/// What stands for each term, by its number.
#[derive(Drop)]
pub struct Templates {
    table: Vec<Template>,
}

// No template for any term.
fn absent(alloc: Global, written: &[Option<Pattern>]) -> Result<Vec<Template>, AllocError>
    ensures { IfOk result (λ table.
        table.items ≡ map (λ (o : Option CodePattern). Absent) written.now) }
{
    written.iter().map(|_| Template::Absent).collect(alloc)
}

// What stands for each term, made in an order in which each comes after those that its template uses.
fn filled(
    alloc: Global,
    written: &[Option<Pattern>],
    order: &[usize],
) -> Result<Vec<Template>, AllocError>
    requires { IsOrder (uses (written_of written.now)) order.now }
    ensures { IfOk result (λ table.
        StandFor (whole_templates (written_of written.now)) table.items (length table.items)) }
{
    let mut table = absent(alloc, written)?;
    for (rank, term) in order.iter().enumerate() {
        match &table[*term] {
            Template::Present(_) => (),
            Template::Absent => {
                let known = Known {
                    table: table.as_slice(),
                    below: rank,
                };
                let made = made(alloc, &written[*term], known)?;
                table[*term] = made;
            }
        }
    }
    Ok(table)
}

/// Replaces the templates that templates use; `None` if one uses itself, through others or not. The only error is
/// want of memory.
pub fn whole_templates(
    alloc: Global,
    written: &[Option<Pattern>],
) -> Result<Option<Templates>, AllocError>
    ensures { IfOk result (λ found. AreWholeFound (written_of written.now) found) }
{
    let graph = uses(alloc, written)?;
    match order(alloc, graph.as_slice())? {
        None => Ok(None),
        Some(order) => Ok(Some(Templates {
            table: filled(alloc, written, order.as_slice())?,
        })),
    }
}

impl Templates {
    /// What stands for each term.
    pub(crate) fn known(&self) -> Known<'_>
        ensures table { result.table.now ≡ self.now.table.items }
        ensures below { result.below ≡ length self.now.table.items }
    {
        Known {
            table: self.table.as_slice(),
            below: self.table.len(),
        }
    }

    /// Replaces the templates that a pattern uses; `None` if there are more nodes than a rule may have. The only
    /// error is want of memory.
    pub fn expanded(&self, alloc: Global, p: &Pattern) -> Result<Option<Pattern>, AllocError>
        ensures { IfOk result (λ found.
            (written : List (Option Tree)) → AreWhole written self.now
            → IsExpanded (whole_templates written) (elaborated p.now) found) }
    {
        match expanded(alloc, p, self.known())? {
            None => Ok(None),
            Some(found) => Ok(Some(found.pattern)),
        }
    }
}
