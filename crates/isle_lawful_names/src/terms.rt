//! The names of terms with rules, and of external functions.

ghost use Rattle.std.specs.Prelude.{◌≡◌, ◌++◌, ℕ, [], length, IfOk};
ghost use Rattle.std.specs.List.{list_all};
ghost use Rattle.isle_core.specs.Rule.{Environment};
ghost use Rattle.isle_core.specs.RuleViews.{environment};
ghost use Rattle.isle_core.specs.Terms.{has_rules};
ghost use Rattle.isle_lawful_names.specs.NameSet.{HasNames};
ghost use Rattle.isle_lawful_names.specs.Claims.{functions_of, function_claims, own_claims, term_claims};
ghost use Rattle.isle_lawful_names.specs.Functions.{texts_of, taker_of};
ghost use Rattle.isle_lawful_names.specs.Judges.{Judges, JudgesBehind, AreRuled};
ghost use Rattle.isle_lawful_names.specs.Words.{is_term_name};

use crate::name_error::NameUse;
use crate::name_set::added;
use crate::ruled::{ruled_terms, told_at};
use crate::single::unless_lawful;
use isle_core::{Sym, Term, TermEnv, TypeEnv};
use isle_spelling::{are_word_bytes, is_identifier};
use std::alloc::{AllocError, Global};
use std::collections::BTreeSet;

// Returns the symbol of a term's external extractor, if it has one.
fn extracted(term: &Term) -> Option<Sym>
    ensures { result ≡ taker_of term.now.kind }
{
    match term.taker() {
        Some((func, _)) => Some(func),
        None => None,
    }
}

// The name of a function, if there is one, unless it may be emitted after the earlier ones, to which it is added.
fn function_found<'a>(
    types: &'a TypeEnv,
    names: &mut BTreeSet<&'a str>,
    func: Option<Sym>,
) -> Result<Option<(NameUse, &'a str)>, AllocError>
    ensures { (env : Environment)
        → IfOk result
        (λ found. JudgesBehind env (λ earlier. function_claims earlier (texts_of types.now func))
        (texts_of types.now func) names.old names.new found) }
{
    let Some(func) = func else {
        return Ok(None);
    };
    let name = types.symbol(func);
    let fresh = added(names, name)?;
    let lawful = is_identifier(name) & fresh;
    Ok(unless_lawful(lawful, NameUse::Function, name))
}

// The first of the names of a term's functions that may not be emitted: its extractor's, then its constructor's.
fn in_functions<'a>(
    types: &'a TypeEnv,
    names: &mut BTreeSet<&'a str>,
    term: &Term,
) -> Result<Option<(NameUse, &'a str)>, AllocError>
    ensures { (env : Environment) → env.types ≡ types.now
        → IfOk result
        (λ found. JudgesBehind env (λ earlier. function_claims earlier (functions_of env term.now))
        (functions_of env term.now) names.old names.new found) }
{
    let taker = extracted(term);
    let maker = term.maker();
    let found = function_found(types, names, taker)?;
    if found.is_some() {
        return Ok(found);
    }
    function_found(types, names, maker)
}

// Whether the name of a term may stand after `constructor_`.
fn is_term_name(name: &str) -> bool
    ensures { result ≡ is_term_name name.now }
{
    are_word_bytes(name.as_bytes())
}

// The name of a term, unless it may be emitted or has no rules.
fn own_found<'a>(types: &'a TypeEnv, term: &Term, ruled: bool) -> Option<(NameUse, &'a str)>
    ensures { (env : Environment) → env.types ≡ types.now → (id : ℕ)
        → ruled ≡ has_rules env (record { 0 = id })
        → Judges env (own_claims env id term.now) result }
{
    if !ruled {
        return None;
    }
    let name = types.symbol(term.name);
    unless_lawful(is_term_name(name), NameUse::Term, name)
}

// The first of the names of a term's functions and its own that may not be emitted.
fn in_term<'a>(
    types: &'a TypeEnv,
    names: &mut BTreeSet<&'a str>,
    term: &Term,
    ruled: bool,
) -> Result<Option<(NameUse, &'a str)>, AllocError>
    ensures { (env : Environment) → env.types ≡ types.now → (id : ℕ)
        → ruled ≡ has_rules env (record { 0 = id })
        → IfOk result
        (λ found. JudgesBehind env
        (λ earlier. function_claims earlier (functions_of env term.now)
        ++ own_claims env id term.now) (functions_of env term.now) names.old names.new found) }
{
    let found = in_functions(types, names, term)?;
    if found.is_some() {
        return Ok(found);
    }
    Ok(own_found(types, term, ruled))
}

// So of all terms, if a table says which have rules.
fn in_terms<'a>(
    types: &'a TypeEnv,
    names: &mut BTreeSet<&'a str>,
    terms: &[Term],
    ruled: &[bool],
) -> Result<Option<(NameUse, &'a str)>, AllocError>
    requires { HasNames [] names.old }
    ensures { (env : Environment) → env.types ≡ types.now
        → AreRuled (length terms.now) env.rules ruled.now
        → IfOk result (λ found. Judges env (term_claims env 0 [] terms.now) found) }
{
    for (id, term) in terms.iter().enumerate() {
        let found = in_term(types, names, term, told_at(ruled, id))?;
        if found.is_some() {
            return Ok(found);
        }
    }
    Ok(None)
}

/// Gives the first name of an external function or a term with rules that may not be emitted. The only error is want of
/// memory.
pub fn unlawful_term<'a>(
    alloc: Global,
    types: &'a TypeEnv,
    termenv: &TermEnv,
) -> Result<Option<(NameUse, &'a str)>, AllocError>
    ensures { IfOk result (λ found.
        Judges (environment types.now termenv.now)
        (term_claims (environment types.now termenv.now) 0 [] termenv.now.terms) found) }
{
    let ruled = ruled_terms(alloc, termenv)?;
    let mut names = BTreeSet::new(alloc);
    in_terms(
        types,
        &mut names,
        termenv.terms.as_slice(),
        ruled.as_slice(),
    )
}
