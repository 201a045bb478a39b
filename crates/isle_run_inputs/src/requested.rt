//! The term that is run.

ghost use Rattle.std.specs.Prelude.{◌≡◌, map};
ghost use Rattle.isle_core.specs.Rule.{Environment};
ghost use Rattle.isle_core.specs.RuleViews.{environment};
ghost use Rattle.isle_core.specs.Terms.{term_name, with_rules};
ghost use Rattle.isle_run_inputs.specs.Requested.{requested_term};
ghost use Rattle.std.specs.Str.{bytes_eq};

use isle_core::{RuleSet, Term, TermEnv, TermId, TypeEnv};

// Whether a term has the name.
fn is_named(typeenv: &TypeEnv, terms: &[Term], id: TermId, name: &str) -> bool
    ensures { (env : Environment) → env.types ≡ typeenv.now → env.terms ≡ terms.now
        → result ≡ bytes_eq name.now (term_name env id) }
{
    name == typeenv.term_name(terms, id)
}

/// Returns the first term of this name that has rules. `terms` lists the terms with rules, in order of ids.
pub fn requested_term(
    typeenv: &TypeEnv,
    termenv: &TermEnv,
    terms: &[(TermId, RuleSet)],
    name: &str,
) -> Option<TermId>
    requires { map (λ t. t.0) terms.now ≡ with_rules (environment typeenv.now termenv.now) }
    ensures { result ≡ requested_term (environment typeenv.now termenv.now) name.now }
{
    for listed in terms {
        if is_named(typeenv, termenv.terms.as_slice(), listed.0, name) {
            return Some(listed.0);
        }
    }
    None
}
