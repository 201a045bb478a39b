//! Conditions with templates in place of terms.

ghost use Rattle.std.specs.Prelude.{◌≡◌, ◌≤◌, ℕ, List, Option, [], ◌∷◌, ◌++◌, IfOk, map};
ghost use Rattle.isle_core.specs.Pattern.{Pattern as Tree};
ghost use Rattle.isle_core.specs.Rule.{IfLet as Condition};
ghost use Rattle.isle_core.specs.RuleViews.{expr as elaborated_expr, iflet as elaborated};
ghost use Rattle.isle_templates.specs.Counted.{IsCounted};
ghost use Rattle.isle_templates.specs.CountedConditions.{AreConditions, AreConditionsTaken, AreConditionsCounted};
ghost use Rattle.isle_templates.specs.Elaborated.{condition_expanded};
ghost use Rattle.isle_templates.specs.Standing.{StandFor};

use crate::counted::{Conditions, Counted, MOST_NODES};
use crate::expansion::expanded;
use crate::expr_nodes::expr_nodes;
use crate::known::Known;
use isle_core::{Expr, IfLet};
use std::alloc::{AllocError, Global};

impl Conditions {
    // Makes room for so many conditions, over so many nodes.
    fn new(alloc: Global, room: usize, nodes: usize) -> Result<Conditions, AllocError>
        requires { nodes ≤ 4096 }
        ensures nodes { IfOk result (λ conditions. conditions.nodes ≡ nodes) }
        ensures iflets { IfOk result (λ conditions. conditions.iflets.items ≡ []) }
    {
        Ok(Conditions {
            iflets: Vec::with_capacity(alloc, room)?,
            nodes,
        })
    }

    // Takes one more condition, and says whether there are few enough nodes with it.
    fn push(&mut self, lhs: Option<Counted>, rhs: Expr) -> Result<bool, AllocError>
        ensures { IfOk result (λ taken.
            (base : ℕ) (cs : List Condition) (p : Tree) → AreConditions base cs self.old
            → IsCounted p lhs
            → AreConditionsTaken taken base
            (cs ++ record { lhs = p; rhs = elaborated_expr rhs } ∷ []) self.new) }
    {
        let Some(Counted { pattern, nodes }) = lhs else {
            return Ok(false);
        };
        let more = nodes.saturating_add(expr_nodes(&rhs));
        let nodes = self.nodes.saturating_add(more);
        if nodes > MOST_NODES {
            return Ok(false);
        }
        self.nodes = nodes;
        self.iflets.push(IfLet { lhs: pattern, rhs })?;
        Ok(true)
    }
}

/// Conditions with templates in place of terms, in order, and how many nodes there are with so many others. The only
/// error is want of memory.
pub fn iflets_expanded(
    alloc: Global,
    iflets: Vec<IfLet>,
    base: usize,
    known: Known<'_>,
) -> Result<Option<Conditions>, AllocError>
    requires { base ≤ 4096 }
    ensures { IfOk result (λ found.
        (whole : List (Option Tree)) → StandFor whole known.entry.table.now known.entry.below
        → AreConditionsCounted base (map (condition_expanded whole) (map elaborated iflets.items))
        found) }
{
    let mut found = Conditions::new(alloc, iflets.len(), base)?;
    for IfLet { lhs, rhs } in iflets {
        let lhs = expanded(alloc, &lhs, known)?;
        if !found.push(lhs, rhs)? {
            return Ok(None);
        }
    }
    Ok(Some(found))
}
