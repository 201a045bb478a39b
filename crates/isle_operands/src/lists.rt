//! Lists: which bindings are lists, and the lists that are looped over.

ghost use Rattle.std.specs.Prelude.{◌≡◌, Some as Is};
ghost use Rattle.isle_core.specs.Calling as Calling;
ghost use Rattle.isle_core.specs.Rule.{Environment};
ghost use Rattle.isle_operands.specs.Contexts.{env_of, setting_of};
ghost use Rattle.isle_simulation.specs.Statements as Statements;

use crate::context::Context;
use isle_core::{Binding, BindingId, ConstructorKind, ExtractorKind, Term, TermId, TermKind};

// Returns whether a call of a term answers several times.
fn is_multi_call(term: &Term) -> bool
    ensures { (env : Environment)
        → result ≡ Calling.answers_often (Calling.calling_of env (Is term.now)) }
{
    match &term.kind {
        TermKind::Decl {
            multi: true,
            constructor: ConstructorKind::Internal,
            ..
        } => true,
        TermKind::Decl {
            multi: true,
            constructor: ConstructorKind::External { .. },
            ..
        } => true,
        TermKind::Decl { .. } | TermKind::Variant { .. } | TermKind::Struct { .. } => false,
    }
}

// Returns whether a call of a term's extractor does.
fn is_multi_extraction(term: &Term) -> bool
    ensures { (env : Environment)
        → result ≡ Calling.answers_often (Calling.extracting_of env (Is term.now)) }
{
    match &term.kind {
        TermKind::Decl {
            multi: true,
            extractor: ExtractorKind::External { .. },
            ..
        } => true,
        TermKind::Decl { .. } | TermKind::Variant { .. } | TermKind::Struct { .. } => false,
    }
}

// Returns whether a call of the term of this number answers several times.
fn calls_often(context: &Context<'_>, term: TermId) -> bool
    ensures { result ≡ Calling.answers_often (Calling.calling (env_of context.now) term) }
{
    match context.termenv.terms.as_slice().get(term.index()) {
        Some(called) => is_multi_call(called),
        None => false,
    }
}

// Returns whether a call of its extractor does.
fn extracts_often(context: &Context<'_>, term: TermId) -> bool
    ensures { result ≡ Calling.answers_often (Calling.extracting (env_of context.now) term) }
{
    match context.termenv.terms.as_slice().get(term.index()) {
        Some(called) => is_multi_extraction(called),
        None => false,
    }
}

// Returns whether a binding is a list.
fn is_list(context: &Context<'_>, binding: &Binding) -> bool
    ensures { result ≡ Statements.is_list (env_of context.now) (Is binding.now) }
{
    match binding {
        Binding::Constructor { term, .. } => calls_often(context, *term),
        Binding::Extractor { term, .. } => extracts_often(context, *term),
        _ => false,
    }
}

/// Returns whether the binding of this number is a list.
pub fn binds_list(context: &Context<'_>, binding: BindingId) -> bool
    ensures { result ≡ Statements.binds_list (setting_of context.now) binding }
{
    match context.bindings.get(binding.index()) {
        Some(of) => is_list(context, of),
        None => false,
    }
}

/// Returns the local of the list whose item the binding of this number is.
pub fn looped_local(context: &Context<'_>, binding: BindingId) -> Option<usize>
    ensures { result ≡ Statements.looped_local (setting_of context.now) binding }
{
    match context.bindings.get(binding.index()) {
        Some(Binding::Iterator { source }) => Some(source.index()),
        _ => None,
    }
}
