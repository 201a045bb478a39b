ghost use Rattle.std.specs.Prelude.{◌≡◌, IfOk, OnOk};
ghost use Rattle.isle_core.specs.BuiltRule.{IsBuiltIfLet, IsBuiltRule};
ghost use Rattle.isle_core.specs.Path.{paths_of};
ghost use Rattle.isle_core.specs.Rule.{Environment};
ghost use Rattle.isle_core.specs.RuleViews.{iflet as seen, rule as seen_rule};
ghost use Rattle.isle_core.specs.Scope.{IsInScope, IsScopedRule};
ghost use Rattle.isle_rulesets.specs.RightSides.{names, AreThere};
ghost use Rattle.isle_rulesets.specs.Conditions.{FindsAll, TakesCondition, NumbersRule};

use crate::numbering::Numbering;
use crate::pattern_tests::{PatternTests, constrain};
use crate::patterns::{number_arguments, number_pattern};
use crate::right_side::number_expr;
use isle_core::{BindingId, Constraint, IfLet, Rule, Term};
use std::alloc::{AllocError, Global};

// Each of these calls must find something.
fn constrain_calls(tests: &mut PatternTests, calls: &[BindingId]) -> Result<(), AllocError>
    ensures { OnOk result (FindsAll tests.old tests.new calls.now) }
{
    for call in calls {
        constrain(tests, *call, Constraint::Some)?;
    }
    Ok(())
}

// The numbers of a condition's expression and of what its pattern takes apart, and the tests that both put: calls that
// must find something, and then the pattern's.
fn number_condition(
    alloc: Global,
    terms: &[Term],
    numbering: &mut Numbering,
    tests: &mut PatternTests,
    condition: &IfLet,
) -> Result<(), AllocError>
    requires built { IsBuiltIfLet terms.now (seen condition.now) }
    requires known { IsInScope (names tests.old.variables) (seen condition.now).rhs }
    requires there { AreThere (paths_of numbering.old.bindings) tests.old.variables }
    ensures { OnOk result
        ((env : Environment) → env.terms ≡ terms.now
        → TakesCondition env numbering.old numbering.new tests.old tests.new (seen condition.now)) }
{
    let mut calls = Vec::new(alloc);
    let value = number_expr(
        alloc,
        terms,
        &mut tests.variables,
        numbering,
        &mut calls,
        &condition.rhs,
    )?;
    constrain_calls(tests, calls.as_slice())?;
    number_pattern(alloc, terms, numbering, tests, &condition.lhs, value)
}

/// Numbers all in front of a rule's right side: its arguments and what their patterns take apart, and then its
/// conditions in order; gathers the tests that they put. The only error is want of memory.
pub fn number_patterns(
    alloc: Global,
    terms: &[Term],
    numbering: &mut Numbering,
    rule: &Rule,
) -> Result<PatternTests, AllocError>
    requires built { IsBuiltRule terms.now (seen_rule rule.now) }
    requires bound { IsScopedRule (seen_rule rule.now) }
    ensures known { IfOk result (λ d. IsInScope (names d.variables) (seen_rule rule.now).rhs) }
    ensures there { IfOk result (λ d. AreThere (paths_of numbering.new.bindings) d.variables) }
    ensures numbers { IfOk result (λ d.
        (env : Environment) → env.terms ≡ terms.now
        → NumbersRule env numbering.old numbering.new (seen_rule rule.now) d) }
{
    let mut tests = number_arguments(alloc, terms, numbering, rule.args.as_slice())?;
    let conditions = rule.iflets.as_slice();
    for condition in conditions {
        number_condition(alloc, terms, numbering, &mut tests, condition)?;
    }
    Ok(tests)
}
