ghost use Rattle.std.specs.Prelude.{◌≡◌, ◌≤◌, IfOk, OnOk, map, All, slice_get};
ghost use Rattle.isle_core.specs.Path.{paths_of};
ghost use Rattle.isle_core.specs.RuleViews.{pattern as seen, patterns_of};
ghost use Rattle.isle_core.specs.Rule.{Environment};
ghost use Rattle.isle_core.specs.Making.{making_in};
ghost use Rattle.isle_core.specs.BuiltRule.{IsOpening, IsBuiltPattern, AreBuiltPatterns, count};
ghost use Rattle.isle_rulesets.specs.Keys.{IsThere};
ghost use Rattle.isle_rulesets.specs.PatternTests.{Takes, TakesEach, TakesTerm, NumbersPatterns};

use crate::keys::Key;
use crate::numbering::Numbering;
use crate::opening::{number_part, open};
use crate::pattern_tests::{PatternTests, bind_or_equate, constrain};
use isle_core::{BindingId, Constraint, Pattern, Term, TermId, TupleIndex};
use std::alloc::{AllocError, Global};

/// Gathers a pattern's tests on a numbered path, and numbers what it takes apart. The only error is want of memory.
#[cycle(pattern)]
pub fn number_pattern(
    alloc: Global,
    terms: &[Term],
    numbering: &mut Numbering,
    tests: &mut PatternTests,
    pattern: &Pattern,
    source: BindingId,
) -> Result<(), AllocError>
    requires built { IsBuiltPattern terms.now (seen pattern.now) }
    requires there { IsThere (paths_of numbering.old.bindings) source }
    ensures { OnOk result
        ((env : Environment) → env.terms ≡ terms.now
        → Takes env numbering.old numbering.new tests.old tests.new (seen pattern.now) source) }
{
    match pattern {
        Pattern::Var(_, var) => bind_or_equate(tests, *var, source),
        Pattern::ConstBool(val) => constrain(tests, source, Constraint::ConstBool { val: *val }),
        Pattern::ConstInt(ty, val) => {
            constrain(tests, source, Constraint::ConstInt { val: *val, ty: *ty })
        }
        Pattern::ConstPrim(_, val) => constrain(tests, source, Constraint::ConstPrim { val: *val }),
        Pattern::Wildcard(_) => Ok(()),
        Pattern::Term(_, term, parts) => number_term(
            alloc,
            terms,
            numbering,
            tests,
            *term,
            parts.as_slice(),
            source,
        ),
        Pattern::BindPattern(_, var, inner) => {
            bind_or_equate(tests, *var, source)?;
            number_pattern(alloc, terms, numbering, tests, inner.get(), source)
        }
        Pattern::And(_, parts) => {
            number_each(alloc, terms, numbering, tests, parts.as_slice(), source)
        }
    }
}

// The tests of several patterns on one numbered path, and the numbers of what they take apart.
#[cycle(pattern)]
fn number_each(
    alloc: Global,
    terms: &[Term],
    numbering: &mut Numbering,
    tests: &mut PatternTests,
    parts: &[Pattern],
    source: BindingId,
) -> Result<(), AllocError>
    requires built { AreBuiltPatterns terms.now (patterns_of (map seen parts.now)) }
    requires there { IsThere (paths_of numbering.old.bindings) source }
    ensures { OnOk result
        ((env : Environment) → env.terms ≡ terms.now
        → TakesEach env numbering.old numbering.new tests.old tests.new
        (patterns_of (map seen parts.now)) source) }
{
    for part in parts {
        number_pattern(alloc, terms, numbering, tests, part, source)?;
    }
    Ok(())
}

// The tests of a term's pattern, and the numbers of all that it takes a value apart into.
#[cycle(pattern)]
fn number_term(
    alloc: Global,
    terms: &[Term],
    numbering: &mut Numbering,
    tests: &mut PatternTests,
    term: TermId,
    parts: &[Pattern],
    source: BindingId,
) -> Result<(), AllocError>
    requires opens { IsOpening (making_in terms.now term) (slice_get terms.now term.0) }
    requires few { count (patterns_of (map seen parts.now)) ≤ 256 }
    requires built { AreBuiltPatterns terms.now (patterns_of (map seen parts.now)) }
    requires there { IsThere (paths_of numbering.old.bindings) source }
    ensures { OnOk result
        ((env : Environment) → env.terms ≡ terms.now
        → TakesTerm env numbering.old numbering.new tests.old tests.new term
        (patterns_of (map seen parts.now)) source) }
{
    let opened = open(alloc, terms, numbering, tests, term, source)?;
    for (index, part) in parts.iter().enumerate() {
        let field = TupleIndex(index as u8);
        let number = number_part(alloc, numbering, opened, field)?;
        number_pattern(alloc, terms, numbering, tests, part, number)?;
    }
    Ok(())
}

/// Numbers the arguments of patterns and what these take apart, and gathers the tests that they put
/// (`isle_core/specs/Tests.antt`). The only error is want of memory.
pub fn number_arguments(
    alloc: Global,
    terms: &[Term],
    numbering: &mut Numbering,
    patterns: &[Pattern],
) -> Result<PatternTests, AllocError>
    requires { All (IsBuiltPattern terms.now) (map seen patterns.now) }
    ensures { IfOk result (λ d.
        (env : Environment) → env.terms ≡ terms.now
        → NumbersPatterns env numbering.old numbering.new (map seen patterns.now) d) }
{
    let mut tests = PatternTests::new(alloc);
    for (index, pattern) in patterns.iter().enumerate() {
        let argument = numbering.intern(alloc, Key::Argument(index))?;
        number_pattern(alloc, terms, numbering, &mut tests, pattern, argument)?;
    }
    Ok(tests)
}
