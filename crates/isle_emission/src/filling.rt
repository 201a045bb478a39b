//! The calls that fill lists.

ghost use Rattle.std.specs.Prelude.{◌≡◌, true as Yes, Some as Is, IfOk, IsSome};
ghost use Rattle.isle_emission.specs.Built.{IsComputed};
ghost use Rattle.isle_emission.specs.Calls.{call_expr};
ghost use Rattle.isle_emission.specs.Emitter.{setting_in};
ghost use Rattle.isle_simulation.specs.Statements as Statements;

use crate::called::Called;
use crate::emitter::Emitter;
use isle_core::{Binding, BindingId};
use isle_scope::Scope;
use std::alloc::AllocError;

impl Emitter<'_> {
    // Makes the call that fills a list; nothing but a call is a list, so that no other form comes here.
    fn call_in(
        &self,
        bound: &Scope,
        number: BindingId,
        binding: &Binding,
    ) -> Result<Called, AllocError>
        requires list { Statements.is_list (setting_in self.now).env (Is binding.now) ≡ Yes }
        requires computed { IsSome
            (Statements.computed (setting_in self.now) bound.now number (Is binding.now)) }
        ensures { IfOk result (λ call. Is (call_expr call) ≡
            Statements.computed (setting_in self.now) bound.now number (Is binding.now)) }
    {
        match binding {
            Binding::Constructor {
                term,
                parameters,
                ..
            } => self.call_of(bound, *term, parameters.as_slice()),
            Binding::Extractor { term, parameter } => self.extraction_of(bound, *term, *parameter),
            _ => unreachable!(),
        }
    }

    /// Makes the call that fills the list that the binding of this number is: a list, so that the binding is there.
    pub fn filling_call(&self, bound: &Scope, binding: BindingId) -> Result<Called, AllocError>
        requires list { Statements.binds_list (setting_in self.now) binding ≡ Yes }
        requires computed { IsComputed (setting_in self.now) bound.now binding }
        ensures { IfOk result (λ call.
            Is (call_expr call) ≡ Statements.bound_expr (setting_in self.now) bound.now binding) }
    {
        match self.typed.context.bindings.get(binding.index()) {
            Some(of) => self.call_in(bound, binding, of),
            None => unreachable!(),
        }
    }
}
