//! What calls of terms go to.

ghost use Rattle.std.specs.Prelude.{◌≡◌};
ghost use Rattle.isle_core.specs.Calling.{pure_callee};
ghost use Rattle.isle_core.specs.Rule.{Environment};
ghost use Rattle.isle_core.specs.Terms.{callee_by, impure_callee};
ghost use Rattle.isle_run_inputs.specs.Asked.{extractor_callee};
ghost use Rattle.isle_run_inputs.specs.Called.{called};

use isle_core::{ConstructorKind, ExtractorKind, Term, TermKind, TypeEnv};

/// What a call goes to, by its name.
#[derive(Clone, Copy, Debug)]
pub enum Called<'e> {
    External(&'e str),
    Internal(&'e str),
    Nothing,
}

// What a call of a term with this constructor goes to.
fn callee_by<'e>(typeenv: &'e TypeEnv, term: &Term, by: &ConstructorKind) -> Called<'e>
    ensures { (env : Environment) → env.types ≡ typeenv.now
        → called result ≡ callee_by env term.now by.now }
{
    match by {
        ConstructorKind::Absent => Called::Nothing,
        ConstructorKind::Internal => Called::Internal(typeenv.symbol(term.name)),
        ConstructorKind::External { func } => Called::External(typeenv.symbol(*func)),
    }
}

/// Returns what a call of a term goes to, where it is impure.
pub fn impure_callee<'e>(typeenv: &'e TypeEnv, term: &Term) -> Called<'e>
    ensures { (env : Environment) → env.types ≡ typeenv.now
        → called result ≡ impure_callee env term.now term.now.kind }
{
    match &term.kind {
        TermKind::Decl {
            pure: false,
            constructor,
            ..
        } => callee_by(typeenv, term, constructor),
        TermKind::Decl { pure: true, .. } | TermKind::Variant { .. } | TermKind::Struct { .. } => {
            Called::Nothing
        }
    }
}

/// Returns what a call of a term goes to, where it is pure.
pub fn pure_callee<'e>(typeenv: &'e TypeEnv, term: &Term) -> Called<'e>
    ensures { (env : Environment) → env.types ≡ typeenv.now
        → called result ≡ pure_callee env term.now term.now.kind }
{
    match &term.kind {
        TermKind::Decl {
            pure: true,
            constructor,
            ..
        } => callee_by(typeenv, term, constructor),
        TermKind::Decl { pure: false, .. } | TermKind::Variant { .. } | TermKind::Struct { .. } => {
            Called::Nothing
        }
    }
}

/// Returns what a call of a term as an extractor goes to, where that is external.
pub fn extractor_callee<'e>(typeenv: &'e TypeEnv, term: &Term) -> Called<'e>
    ensures { (env : Environment) → env.types ≡ typeenv.now
        → called result ≡ extractor_callee env term.now.kind }
{
    match &term.kind {
        TermKind::Decl { extractor, .. } => match extractor {
            ExtractorKind::External { func, .. } => Called::External(typeenv.symbol(*func)),
            ExtractorKind::Absent | ExtractorKind::Internal => Called::Nothing,
        },
        TermKind::Variant { .. } | TermKind::Struct { .. } => Called::Nothing,
    }
}
