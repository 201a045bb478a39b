//! How many nodes templates have with those that they use put in, which is counted without making them.

ghost use Rattle.std.specs.Prelude.{List, [], Option, map};
ghost use Rattle.isle_base.specs.declared.ids.TypeId.{TypeId};
ghost use Rattle.isle_core.specs.Pattern.{Pattern as Tree};
ghost use Rattle.isle_core.specs.RuleViews.{pattern as elaborated, patterns_of};
ghost use Rattle.isle_templates.specs.NodeCount.{pattern_nodes, patterns_nodes};
ghost use Rattle.isle_templates.specs.SameCount.{SameCount};
ghost use Rattle.isle_templates.specs.Standing.{IsKept, StandFor};
ghost use Rattle.isle_templates.specs.Substituted.{
  all_substituted,
  expanded,
  opened,
  substituted,
  template_of,
};

use crate::known::{Known, kept_of};
use crate::template::Kept;
use isle_core::{Pattern, TermId};

/// Returns how many nodes a template has if each parameter is one, with the templates that it uses put in.
#[cycle(counting)]
#[tactic(auto, using(isle_core::proofs::SeesRules::sees))]
pub fn whole_nodes(template: &Pattern, known: Known<'_>) -> usize
    ensures { (whole : List (Option Tree)) → StandFor whole known.entry.table.now known.entry.below
        → SameCount result (pattern_nodes
        (substituted [] (expanded whole (elaborated template.now)))) }
{
    match template {
        Pattern::BindPattern(_, _, inner) => whole_nodes(inner.get(), known).saturating_add(2),
        Pattern::Var(_, _) => 1,
        Pattern::ConstBool(_) => 1,
        Pattern::ConstInt(_, _) => 1,
        Pattern::ConstPrim(_, _) => 1,
        Pattern::Term(_, term, parts) => term_nodes(parts.as_slice(), *term, known),
        Pattern::Wildcard(_) => 1,
        Pattern::And(_, parts) => all_whole_nodes(parts.as_slice(), known).saturating_add(1),
    }
}

// So of parts.
#[cycle(counting)]
fn all_whole_nodes(parts: &[Pattern], known: Known<'_>) -> usize
    ensures { (whole : List (Option Tree)) → StandFor whole known.entry.table.now known.entry.below
        → SameCount result (patterns_nodes
        (all_substituted [] (patterns_of (map (expanded whole) (map elaborated parts.now))))) }
{
    let mut nodes: usize = 0;
    for p in parts {
        nodes = nodes.saturating_add(whole_nodes(p, known));
    }
    nodes
}

// So of a term on these parts, or of its template with them.
#[cycle(counting)]
fn term_nodes(parts: &[Pattern], term: TermId, known: Known<'_>) -> usize
    ensures { (whole : List (Option Tree)) (ty : TypeId)
        → StandFor whole known.entry.table.now known.entry.below
        → SameCount result (pattern_nodes (substituted [] (opened (template_of whole term) ty term
        (map (expanded whole) (map elaborated parts.now))))) }
{
    match kept_of(known, term) {
        None => all_whole_nodes(parts, known).saturating_add(1),
        Some(kept) => opened_nodes(parts, kept, known),
    }
}

// So of a template with patterns in place of its parameters.
#[cycle(counting)]
fn opened_nodes(args: &[Pattern], kept: &Kept, known: Known<'_>) -> usize
    ensures { (whole inner : List (Option Tree)) (template : Tree)
        → StandFor whole known.entry.table.now known.entry.below → IsKept inner template kept.now
        → SameCount result (pattern_nodes
        (substituted [] (substituted (map (expanded whole) (map elaborated args.now)) template))) }
{
    let mut nodes = kept.nodes;
    for (parameter, arg) in args.iter().enumerate() {
        let more = whole_nodes(arg, known).saturating_sub(1);
        nodes = nodes.saturating_add(kept.times(parameter).saturating_mul(more));
    }
    nodes
}
