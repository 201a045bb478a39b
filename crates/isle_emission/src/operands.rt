//! Names, fields and operands, each of which is there.

ghost use Rattle.std.specs.Prelude.{◌≡◌, ◌<◌, Some as Is, IfOk, IsSome, length, slice_get};
ghost use Rattle.isle_core.specs.Terms.{sym_text};
ghost use Rattle.isle_emission.specs.Built.{HasOperand};
ghost use Rattle.isle_emission.specs.Emitter.{setting_in, fields_in, operand_in};
ghost use Rattle.isle_simulation.specs.Statements as Statements;

use crate::emitter::Emitter;
use isle_core::{BindingId, Fields, Sym, Text, TypeId};
use isle_operands::{field_at, is_by_ref, is_reference, operand_of, read_as, sym_name};
use isle_scope::Scope;
use isle_tree::{Operand, Read};
use std::alloc::AllocError;

impl Emitter<'_> {
    /// Makes the name of a symbol.
    pub fn name(&self, sym: Sym) -> Result<Text, AllocError>
        ensures { IfOk result (λ name. name ≡ sym_text (setting_in self.now).env sym) }
    {
        sym_name(self.alloc, self.typed.context.typeenv, sym)
    }

    /// Makes what stands for a binding: its local if it is bound, or else what is read in place. There is one of the
    /// two, as is required.
    pub fn operand(&self, bound: &Scope, binding: BindingId) -> Result<Operand, AllocError>
        requires { HasOperand (setting_in self.now) bound.now binding }
        ensures { IfOk result (λ o.
            Is o ≡ operand_in self.now bound.now binding) }
    {
        match operand_of(self.alloc, &self.typed.context, bound, binding)? {
            Some(operand) => Ok(operand),
            None => unreachable!(),
        }
    }

    /// Makes the read of a binding where a reference is wanted or not.
    pub fn read(&self, bound: &Scope, wanted: bool, binding: BindingId) -> Result<Read, AllocError>
        requires { HasOperand (setting_in self.now) bound.now binding }
        ensures { IfOk result (λ r.
            Is r ≡ Statements.read_in (setting_in self.now) bound.now wanted binding) }
    {
        let operand = self.operand(bound, binding)?;
        Ok(read_as(wanted, is_reference(&self.typed, binding), operand))
    }

    /// Makes the reads of bindings as they are handed to parameters of these types, in order: one for each type.
    pub fn reads(
        &self,
        bound: &Scope,
        tys: &[TypeId],
        bindings: &[BindingId],
    ) -> Result<Vec<Read>, AllocError>
        requires { IsSome (Statements.reads (setting_in self.now) bound.now tys.now bindings.now) }
        ensures { IfOk result (λ reads. Is reads.items ≡
            Statements.reads (setting_in self.now) bound.now tys.now bindings.now) }
    {
        let mut reads = Vec::new(self.alloc);
        for index in 0..bindings.len() {
            let wanted = is_by_ref(self.typed.context.typeenv, tys[index]);
            reads.push(self.read(bound, wanted, bindings[index])?)?;
        }
        Ok(reads)
    }

    /// Makes the name of the field of this number, and returns its type. There are more fields than that.
    pub fn field(&self, fields: &Fields, index: usize) -> Result<(Text, TypeId), AllocError>
        requires { index < length (fields_in self.now fields.now) }
        ensures { IfOk result (λ found.
            Is found ≡ slice_get (fields_in self.now fields.now) index) }
    {
        match field_at(self.alloc, &self.typed.context, fields, index)? {
            Some(found) => Ok(found),
            None => unreachable!(),
        }
    }
}
