//! What bound locals compute: calls, the inner values of options, parts of tuples, made values, and what is read in
//! place.

ghost use Rattle.std.specs.Prelude.{◌≡◌, Some as Is, IfOk, IsSome};
ghost use Rattle.isle_emission.specs.Built.{HasOperand, IsComputed};
ghost use Rattle.isle_emission.specs.Emitter.{setting_in, operand_in, place_in};
ghost use Rattle.isle_simulation.specs.References.{is_reference_in};
ghost use Rattle.isle_simulation.specs.Statements as Statements;

use crate::called::called_expr;
use crate::emitter::Emitter;
use isle_core::{Binding, BindingId, TupleIndex};
use isle_operands::{in_place, is_reference, struct_form, variant_form};
use isle_scope::Scope;
use isle_tree::{Read, TExpr};
use std::alloc::AllocError;

impl Emitter<'_> {
    // Makes the inner value of the option that a binding is.
    fn inner(&self, bound: &Scope, source: BindingId) -> Result<TExpr, AllocError>
        requires { HasOperand (setting_in self.now) bound.now source }
        ensures { IfOk result (λ e. Is e ≡ Statements.inner_of
            (is_reference_in (setting_in self.now) source) (operand_in self.now bound.now source)) }
    {
        let operand = self.operand(bound, source)?;
        Ok(TExpr::Try {
            source: operand,
            as_ref: is_reference(&self.typed, source),
        })
    }

    // Makes a part of the tuple that a binding is.
    fn part(&self, bound: &Scope, source: BindingId, field: TupleIndex) -> Result<TExpr, AllocError>
        requires { HasOperand (setting_in self.now) bound.now source }
        ensures { IfOk result (λ e. Is e ≡ Statements.part_of field.0
            (operand_in self.now bound.now source)) }
    {
        Ok(TExpr::Tuple(self.operand(bound, source)?, field.index()))
    }

    // Makes a read of what is read in place, if something is, as is required.
    fn plain(&self, binding: BindingId) -> Result<TExpr, AllocError>
        requires { IsSome (place_in self.now binding) }
        ensures { IfOk result (λ e.
            Is e ≡ Statements.read_of (place_in self.now binding)) }
    {
        match in_place(self.alloc, &self.typed.context, binding)? {
            Some(operand) => Ok(TExpr::Read(Read::Plain(operand))),
            None => unreachable!(),
        }
    }

    // Makes what the local of a binding of this number computes. Items of lists, fields and options that are made have
    // no local that is computed.
    fn expr_of(
        &self,
        bound: &Scope,
        number: BindingId,
        binding: &Binding,
    ) -> Result<TExpr, AllocError>
        requires { IsSome
            (Statements.computed (setting_in self.now) bound.now number (Is binding.now)) }
        ensures { IfOk result (λ e.
            Is e ≡ Statements.computed (setting_in self.now) bound.now number (Is binding.now)) }
    {
        let context = &self.typed.context;
        match binding {
            Binding::Constructor {
                term,
                parameters,
                ..
            } => Ok(called_expr(self.call_of(bound, *term, parameters.as_slice())?)),
            Binding::Extractor { term, parameter } => {
                Ok(called_expr(self.extraction_of(bound, *term, *parameter)?))
            }
            Binding::MatchSome { source } => self.inner(bound, *source),
            Binding::MatchTuple { source, field } => self.part(bound, *source, *field),
            Binding::MakeVariant {
                ty,
                variant,
                fields,
            } => self.made_in(
                bound,
                variant_form(context, *ty, *variant),
                fields.as_slice(),
            ),
            Binding::MakeStruct { ty, fields } => {
                self.made_in(bound, struct_form(context, *ty), fields.as_slice())
            }
            Binding::Argument { .. }
            | Binding::ConstBool { .. }
            | Binding::ConstInt { .. }
            | Binding::ConstPrim { .. } => self.plain(number),
            _ => unreachable!(),
        }
    }

    /// Makes what the local of a binding computes: something, so that the binding is there.
    pub fn bound_expr(&self, bound: &Scope, binding: BindingId) -> Result<TExpr, AllocError>
        requires { IsComputed (setting_in self.now) bound.now binding }
        ensures { IfOk result (λ e.
            Is e ≡ Statements.bound_expr (setting_in self.now) bound.now binding) }
    {
        match self.typed.context.bindings.get(binding.index()) {
            Some(of) => self.expr_of(bound, binding, of),
            None => unreachable!(),
        }
    }
}
