//! Rules with templates in place of terms, and with variables numbered after it.

ghost use Rattle.std.specs.Prelude.{List, Option, IfOk};
ghost use Rattle.isle_core.specs.Pattern.{Pattern as Tree};
ghost use Rattle.isle_core.specs.RuleViews.{rule};
ghost use Rattle.isle_templates.specs.ElaboratedRule.{IsRuleExpanded, IsElaborated};
ghost use Rattle.isle_templates.specs.Standing.{StandFor};
ghost use Rattle.isle_templates.specs.Whole.{AreWhole};

use crate::conditions::iflets_expanded;
use crate::counted::MOST_NODES;
use crate::expansion::all_expanded;
use crate::expr_nodes::expr_nodes;
use crate::known::Known;
use crate::renumbering::renumbered;
use crate::templates::Templates;
use isle_core::{List, Rule};
use std::alloc::{AllocError, Global};

// A rule with templates in place of terms.
fn rule_expanded(alloc: Global, known: Known<'_>, given: Rule) -> Result<Option<Rule>, AllocError>
    ensures { IfOk result (λ found.
        (whole : List (Option Tree)) → StandFor whole known.entry.table.now known.entry.below
        → IsRuleExpanded whole (rule given) found) }
{
    let nodes = expr_nodes(&given.rhs);
    if nodes > MOST_NODES {
        return Ok(None);
    }
    let Some(args) = all_expanded(alloc, given.args.as_slice(), nodes, known)? else {
        return Ok(None);
    };
    let iflets = given.iflets.into_vec();
    let Some(conditions) = iflets_expanded(alloc, iflets, args.nodes, known)? else {
        return Ok(None);
    };
    Ok(Some(Rule {
        id: given.id,
        root_term: given.root_term,
        args: List::new(args.patterns),
        iflets: List::new(conditions.iflets),
        rhs: given.rhs,
        prio: given.prio,
        pos: given.pos,
        name: given.name,
    }))
}

/// Replaces the templates that a rule uses, and numbers its variables as they stand first (`specs/Elaborated.antt`);
/// `None` if there are more nodes than a rule may have. The only error is want of memory.
pub fn elaborated(
    alloc: Global,
    templates: &Templates,
    given: Rule,
) -> Result<Option<Rule>, AllocError>
    ensures { IfOk result (λ found.
        (written : List (Option Tree)) → AreWhole written templates.now
        → IsElaborated written (rule given) found) }
{
    match rule_expanded(alloc, templates.known(), given)? {
        None => Ok(None),
        Some(whole) => Ok(Some(renumbered(alloc, &whole)?)),
    }
}
