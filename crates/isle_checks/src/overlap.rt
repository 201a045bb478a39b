//! The checks of all rules.

ghost use Rattle.std.specs.Prelude.{◌≡◌, ◌++◌, [], ◌∷◌, Err, IfOk, OnOk, All, map, slice_get, false};
ghost use Rattle.std.specs.Option.{option_map_or};
ghost use Rattle.isle_core.specs.declared.TermId.{TermId as TheId};
ghost use Rattle.isle_core.specs.declared.types.Term.{Term as TheTerm};
ghost use Rattle.isle_core.specs.BuiltRule.{IsBuiltRule, CallsBuiltTerms};
ghost use Rattle.isle_core.specs.Calling.{is_several, kind_of};
ghost use Rattle.isle_core.specs.Rule.{Environment, rules_of};
ghost use Rattle.isle_core.specs.RuleViews.{rule as seen};
ghost use Rattle.isle_core.specs.Scope.{IsScopedRule};
ghost use Rattle.isle_core.specs.StandsFor.{StandsFor};
ghost use Rattle.isle_core.specs.Terms.{with_rules};
ghost use Rattle.isle_rulesets.specs.Grouping.{AreRuleSets};
ghost use Rattle.isle_checks.specs.CheckList.{TellTerms, IsCheckList};
ghost use Rattle.isle_checks.specs.Checked.{AreSetsOf, AreErrorsIn};
ghost use Rattle.isle_checks.specs.Built.{AreBuilt};
ghost use Rattle.isle_checks.specs.declared.overlap.CheckError.TheVariants.{Rules};

use crate::errors::{TermRules, push_errors};
use crate::names::{Names, TermNames};
use isle_core::{Error, List, OutOfMemory, RuleSet, Term, TermEnv, TermId, TermKind, TypeEnv};
use isle_rulesets::rule_sets;
use std::alloc::{AllocError, Global};

/// Why the rules of terms are not taken.
#[derive(Debug, Drop)]
pub enum CheckError {
    /// What is wrong with them, in order.
    Rules(List<Error>),
    Memory,
}

impl From<AllocError> for CheckError {
    ghost use Rattle.std.specs.Prelude.{◌≡◌};
    ghost use Rattle.isle_checks.specs.declared.overlap.CheckError.TheVariants.{Memory};

    ghost from_gives = { λ _ e. e ≡ Memory };

    fn from(_: AllocError) -> Self {
        CheckError::Memory
    }
}

impl From<OutOfMemory> for CheckError {
    ghost use Rattle.std.specs.Prelude.{◌≡◌};
    ghost use Rattle.isle_checks.specs.declared.overlap.CheckError.TheVariants.{Memory};

    ghost from_gives = { λ _ e. e ≡ Memory };

    fn from(_: OutOfMemory) -> Self {
        CheckError::Memory
    }
}

// Whether a term answers several times.
fn is_multi(terms: &[Term], id: TermId) -> bool
    ensures { let term = slice_get terms.now id.0 in
        result ≡ option_map_or (λ (t : TheTerm). is_several (kind_of t.kind)) term false }
{
    match terms.get(id.index()) {
        Some(
            Term {
                kind: TermKind::Decl { multi, .. },
                ..
            },
        ) => *multi,
        Some(
            Term {
                kind: TermKind::Variant { .. } | TermKind::Struct { .. },
                ..
            },
        )
        | None => false,
    }
}

// The names of a term, if names are given.
fn term_names<'a>(names: Option<&'a Names<'_>>, id: TermId) -> Option<TermNames<'a>> {
    names?.of(id)
}

// Adds the errors of a term whose rules a rule set stands for.
fn push_term(
    alloc: Global,
    names: Option<&Names<'_>>,
    terms: &[Term],
    set: &(TermId, RuleSet),
    errors: &mut Vec<Error>,
) -> Result<(), OutOfMemory>
    ensures { OnOk result
        ((env : Environment) (ids : List TheId) → env.terms ≡ terms.now → AreBuilt env
        → StandsFor env set.now.1 (rules_of env set.now.0) → TellTerms env ids errors.old.items
        → TellTerms env (ids ++ set.now.0 ∷ []) errors.new.items) }
{
    let multi = is_multi(terms, set.0);
    let term = TermRules {
        rules: set.1.rules.as_slice(),
        names: term_names(names, set.0),
    };
    push_errors(alloc, multi, &term, errors)?;
    Ok(())
}

// The errors of all rule sets.
fn errors_of(
    alloc: Global,
    names: Option<&Names<'_>>,
    terms: &[Term],
    sets: &[(TermId, RuleSet)],
) -> Result<Vec<Error>, OutOfMemory>
    ensures { IfOk result (λ errors. (env : Environment) → env.terms ≡ terms.now → AreBuilt env
        → AreRuleSets env sets.now → IsCheckList env errors.items) }
{
    let mut errors = Vec::new(alloc);
    for set in sets {
        push_term(alloc, names, terms, set, &mut errors)?;
    }
    Ok(errors)
}

// Makes the rule sets, or reports what is wrong with rules, with the names that are given.
fn checked(
    alloc: Global,
    names: Option<&Names<'_>>,
    termenv: &TermEnv,
) -> Result<Vec<(TermId, RuleSet)>, CheckError>
    requires built { All (IsBuiltRule termenv.now.terms) (map seen termenv.now.rules) }
    requires bound { All IsScopedRule (map seen termenv.now.rules) }
    requires terms { All (CallsBuiltTerms termenv.now.terms) (map seen termenv.now.rules) }
    ensures ok { IfOk result (λ sets. AreSetsOf termenv.now sets.items) }
    ensures clean { IfOk result (λ sets. AreErrorsIn termenv.now []) }
    ensures some { (errors : List Error) → result ≡ Err (Rules errors) → errors ≡ [] → ⊥ }
    ensures err { (errors : List Error) → result ≡ Err (Rules errors)
        → AreErrorsIn termenv.now errors }
{
    let sets = rule_sets(alloc, termenv)?;
    let errors = errors_of(alloc, names, termenv.terms.as_slice(), sets.as_slice())?;
    if errors.is_empty() {
        return Ok(sets);
    }
    Err(CheckError::Rules(List::new(errors)))
}

/// Makes the rule set of each term with rules, in order of ids, if none of its rules is unreachable by
/// itself, and no two overlap and none is shadowed unless the term answers several times (`multi`). `Rules`
/// comes exactly if one is, and reports each, rule by rule: that it is unreachable by itself, then, if
/// the term answers at most once, the first earlier rule that overlaps it, and the first that shadows it.
pub fn check(alloc: Global, termenv: &TermEnv) -> Result<Vec<(TermId, RuleSet)>, CheckError>
    requires built { All (IsBuiltRule termenv.now.terms) (map seen termenv.now.rules) }
    requires bound { All IsScopedRule (map seen termenv.now.rules) }
    requires terms { All (CallsBuiltTerms termenv.now.terms) (map seen termenv.now.rules) }
    ensures ok { IfOk result (λ sets. AreSetsOf termenv.now sets.items) }
    ensures clean { IfOk result (λ sets. AreErrorsIn termenv.now []) }
    ensures some { (errors : List Error) → result ≡ Err (Rules errors) → errors ≡ [] → ⊥ }
    ensures err { (errors : List Error) → result ≡ Err (Rules errors)
        → AreErrorsIn termenv.now errors }
{
    checked(alloc, None, termenv)
}

/// Does what `check` does, and tells the names of terms and rules in the words of overlaps. If there are errors,
/// they are looked for twice.
pub fn check_named(
    alloc: Global,
    types: &TypeEnv,
    termenv: &TermEnv,
) -> Result<Vec<(TermId, RuleSet)>, CheckError>
    requires built { All (IsBuiltRule termenv.now.terms) (map seen termenv.now.rules) }
    requires bound { All IsScopedRule (map seen termenv.now.rules) }
    requires terms { All (CallsBuiltTerms termenv.now.terms) (map seen termenv.now.rules) }
    ensures ok { IfOk result (λ sets. AreSetsOf termenv.now sets.items) }
    ensures clean { IfOk result (λ sets. AreErrorsIn termenv.now []) }
    ensures some { (errors : List Error) → result ≡ Err (Rules errors) → errors ≡ [] → ⊥ }
    ensures err { (errors : List Error) → result ≡ Err (Rules errors)
        → AreErrorsIn termenv.now errors }
{
    match checked(alloc, None, termenv) {
        Err(CheckError::Rules(_)) => {
            // Names are looked for only where words tell them: most rules have no error.
            let names = Names::new(alloc, types, termenv)?;
            checked(alloc, Some(&names), termenv)
        }
        found => found,
    }
}
