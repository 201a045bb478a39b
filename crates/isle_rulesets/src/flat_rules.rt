ghost use Rattle.std.specs.Prelude.{◌≡◌, IfOk, All};
ghost use Rattle.isle_core.specs.RuleViews.{rule as seen, rules as seen_all};
ghost use Rattle.isle_core.specs.BuiltRule.{IsBuiltRule, CallsBuiltTerms};
ghost use Rattle.isle_core.specs.Scope.{IsScopedRule};
ghost use Rattle.isle_core.specs.StandsFor.{StandsFor};
ghost use Rattle.isle_core.specs.Rule.{Environment};
ghost use Rattle.isle_rulesets.specs.FlatRules.{Adds};

use crate::conditions::number_patterns;
use crate::firsts::{first_calls, first_constraints, first_equals};
use crate::numbering::Numbering;
use crate::right_side::number_expr;
use isle_core::{FlatRule, List, Rule, RuleSet, Term};
use std::alloc::{AllocError, Global};

// A rule as tests of bindings.
fn flat_rule(
    alloc: Global,
    terms: &[Term],
    numbering: &mut Numbering,
    rule: &Rule,
) -> Result<FlatRule, AllocError>
    requires built { IsBuiltRule terms.now (seen rule.now) }
    requires bound { IsScopedRule (seen rule.now) }
    requires terms { CallsBuiltTerms terms.now (seen rule.now) }
    ensures { IfOk result (λ f.
        (env : Environment) → env.terms ≡ terms.now
        → Adds env numbering.old numbering.new (seen rule.now) f) }
{
    numbering.begin_rule();
    let mut pattern_tests = number_patterns(alloc, terms, numbering, rule)?;
    let mut calls = Vec::new(alloc);
    let result = number_expr(
        alloc,
        terms,
        &mut pattern_tests.variables,
        numbering,
        &mut calls,
        &rule.rhs,
    )?;
    let constraints = first_constraints(alloc, pattern_tests.constraints.as_slice())?;
    let ordered = first_calls(alloc, calls.as_slice())?;
    let lists = first_calls(alloc, numbering.lists())?;
    let equals = first_equals(alloc, pattern_tests.equals.as_slice())?;
    Ok(FlatRule {
        pos: rule.pos,
        constraints: List::new(constraints),
        equals: List::new(equals),
        iterators: List::new(lists),
        prio: rule.prio,
        ordered: List::new(ordered),
        result,
    })
}

/// Makes the rule set that stands for rules of one term (`isle_core/specs/StandsFor.antt`). The only error is want of
/// memory.
pub fn rule_set(alloc: Global, terms: &[Term], rules: &[&Rule]) -> Result<RuleSet, AllocError>
    requires built { All (IsBuiltRule terms.now) (seen_all rules.now) }
    requires bound { All IsScopedRule (seen_all rules.now) }
    requires terms { All (CallsBuiltTerms terms.now) (seen_all rules.now) }
    ensures { IfOk result (λ s.
        (env : Environment) → env.terms ≡ terms.now → StandsFor env s (seen_all rules.now)) }
{
    let mut numbering = Numbering::new(alloc);
    let mut flat_rules = Vec::new(alloc);
    for rule in rules {
        flat_rules.push(flat_rule(alloc, terms, &mut numbering, rule)?)?;
    }
    Ok(RuleSet {
        bindings: List::new(numbering.into_bindings()),
        rules: List::new(flat_rules),
    })
}
