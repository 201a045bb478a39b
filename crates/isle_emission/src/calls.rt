//! Calls.

ghost use Rattle.std.specs.Prelude.{◌≡◌, IfOk, IsSome, Some as Is};
ghost use Rattle.isle_emission.specs.Calls.{call_expr, callee_at, extractor_at, called_at, extraction_at};
ghost use Rattle.isle_emission.specs.Emitter.{setting_in};

use crate::called::Called;
use crate::emitter::Emitter;
use isle_core::{BindingId, Callee, ConstructorKind, ExtractorKind, List, Term, TermId, TermKind};
use isle_operands::{is_by_ref, is_declared, one_result};
use isle_scope::Scope;
use isle_tree::TCall;
use std::alloc::AllocError;

impl Emitter<'_> {
    // Returns what a call of a term goes to: its external function, or the function of the text that its rules give. It
    // goes somewhere, as is required, so that the term has one of the two.
    fn callee_of(&self, term: &Term) -> Result<Callee, AllocError>
        requires { IsSome (callee_at (setting_in self.now).env term.now) }
        ensures { IfOk result (λ callee.
            Is callee ≡ callee_at (setting_in self.now).env term.now) }
    {
        match &term.kind {
            TermKind::Decl {
                constructor: ConstructorKind::External { func },
                ..
            } => Ok(Callee::External(self.name(*func)?)),
            TermKind::Decl {
                constructor: ConstructorKind::Internal,
                ..
            } => Ok(Callee::Internal(self.name(term.name)?)),
            TermKind::Decl {
                constructor: ConstructorKind::Absent,
                ..
            }
            | TermKind::Variant { .. }
            | TermKind::Struct { .. } => unreachable!(),
        }
    }

    // Returns what a call of a term's extractor goes to: its external function, which it has, as is required.
    fn extractor_of(&self, term: &Term) -> Result<Callee, AllocError>
        requires { IsSome (extractor_at (setting_in self.now).env term.now) }
        ensures { IfOk result (λ callee.
            Is callee ≡ extractor_at (setting_in self.now).env term.now) }
    {
        match &term.kind {
            TermKind::Decl {
                extractor: ExtractorKind::External { func, .. },
                ..
            } => Ok(Callee::External(self.name(*func)?)),
            TermKind::Decl { .. } | TermKind::Variant { .. } | TermKind::Struct { .. } => {
                unreachable!()
            }
        }
    }

    /// Makes a call of the term of this number on bindings, after a `&` if it gives an enum or a struct. The call
    /// is built, so that the term is there.
    pub fn call_of(
        &self,
        bound: &Scope,
        term: TermId,
        parameters: &[BindingId],
    ) -> Result<Called, AllocError>
        requires { IsSome (called_at (setting_in self.now) bound.now term parameters.now) }
        ensures { IfOk result (λ call.
            Is (call_expr call) ≡ called_at (setting_in self.now) bound.now term parameters.now) }
    {
        let Some(called) = self
            .typed
            .context
            .termenv
            .terms
            .as_slice()
            .get(term.index())
        else {
            unreachable!()
        };
        let callee = self.callee_of(called)?;
        let args = self.reads(bound, called.arg_tys.as_slice(), parameters)?;
        Ok(Called {
            borrow: is_by_ref(self.typed.context.typeenv, called.ret_ty),
            call: TCall {
                callee,
                args: List::new(args),
            },
        })
    }

    /// Makes a call of the extractor of the term of this number on what it takes apart, after a `&` if its one
    /// result is an enum or a struct. The call is built, so that the term is there.
    pub fn extraction_of(
        &self,
        bound: &Scope,
        term: TermId,
        parameter: BindingId,
    ) -> Result<Called, AllocError>
        requires { IsSome (extraction_at (setting_in self.now) bound.now term parameter) }
        ensures { IfOk result (λ call.
            Is (call_expr call) ≡ extraction_at (setting_in self.now) bound.now term parameter) }
    {
        let Some(called) = self
            .typed
            .context
            .termenv
            .terms
            .as_slice()
            .get(term.index())
        else {
            unreachable!()
        };
        let callee = self.extractor_of(called)?;
        let args = self.reads(bound, &[called.ret_ty], &[parameter])?;
        Ok(Called {
            borrow: is_declared(&self.typed, one_result(called.arg_tys.as_slice())),
            call: TCall {
                callee,
                args: List::new(args),
            },
        })
    }
}
