//! Rules whose variables are numbered by the places that bind them, from left to right.

ghost use Rattle.std.specs.Prelude.{◌≡◌, IfOk};
ghost use Rattle.isle_core.specs.RuleViews.{rule};
ghost use Rattle.isle_templates.specs.Renumbered.{renumbered};

use crate::renaming::{all_renamed, expr_renamed, iflets_renamed};
use crate::variables::order_of;
use isle_core::{List, Rule};
use std::alloc::{AllocError, Global};

/// A copy of a rule whose variables are numbered as they stand first (`specs/Renumbered.antt`). The only error is want
/// of memory.
pub fn renumbered(alloc: Global, given: &Rule) -> Result<Rule, AllocError>
    ensures { IfOk result (λ r. rule r ≡ renumbered (rule given.now)) }
{
    let order = order_of(alloc, given)?;
    let args = all_renamed(alloc, &order, given.args.as_slice())?;
    let iflets = iflets_renamed(alloc, &order, given.iflets.as_slice())?;
    let rhs = expr_renamed(alloc, &order, &given.rhs)?;
    Ok(Rule {
        id: given.id,
        root_term: given.root_term,
        args: List::new(args),
        iflets: List::new(iflets),
        rhs,
        prio: given.prio,
        pos: given.pos,
        name: given.name,
    })
}
