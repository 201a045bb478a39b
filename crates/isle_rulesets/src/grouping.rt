ghost use Rattle.std.specs.Prelude.{◌≡◌, length, IfOk, All, map, []};
ghost use Rattle.isle_core.specs.declared.types.TypeEnv.{TypeEnv};
ghost use Rattle.isle_core.specs.RuleViews.{rule as seen, environment};
ghost use Rattle.isle_core.specs.BuiltRule.{IsBuiltRule, CallsBuiltTerms};
ghost use Rattle.isle_core.specs.Scope.{IsScopedRule};
ghost use Rattle.isle_rulesets.specs.Grouping.{AreGroups, AreRuleSets};

use crate::flat_rules::rule_set;
use isle_core::{Rule, RuleSet, TermEnv, TermId};
use std::alloc::{AllocError, Global};

// As many groups, each without a rule.
fn no_groups<'a>(alloc: Global, count: usize) -> Result<Vec<Vec<&'a Rule>>, AllocError>
    ensures { IfOk result (λ groups. AreGroups groups.items count []) }
{
    let mut groups = Vec::new(alloc);
    for _ in 0..count {
        groups.push(Vec::new(alloc))?;
    }
    Ok(groups)
}

// The rules of each term, in order.
fn group<'a>(
    alloc: Global,
    count: usize,
    rules: &'a [Rule],
) -> Result<Vec<Vec<&'a Rule>>, AllocError>
    ensures { IfOk result (λ groups. AreGroups groups.items count (map seen rules.now)) }
{
    let mut groups = no_groups(alloc, count)?;
    for rule in rules {
        let term = rule.root_term.index();
        if term < groups.len() {
            groups[term].push(rule)?;
        }
    }
    Ok(groups)
}

/// Makes the rule set of each term with rules, in order of ids (`specs/Grouping.antt`). The only error is want of
/// memory.
pub fn rule_sets(alloc: Global, terms: &TermEnv) -> Result<Vec<(TermId, RuleSet)>, AllocError>
    requires built { All (IsBuiltRule terms.now.terms) (map seen terms.now.rules) }
    requires bound { All IsScopedRule (map seen terms.now.rules) }
    requires terms { All (CallsBuiltTerms terms.now.terms) (map seen terms.now.rules) }
    ensures { IfOk result (λ sets.
        (types : TypeEnv) → AreRuleSets (environment types terms.now) sets.items) }
{
    let callable = terms.terms.as_slice();
    let groups = group(alloc, callable.len(), terms.rules.as_slice())?;
    let mut sets = Vec::new(alloc);
    for (index, rules) in groups.iter().enumerate() {
        if !rules.is_empty() {
            sets.push((TermId(index), rule_set(alloc, callable, rules)?))?;
        }
    }
    Ok(sets)
}
