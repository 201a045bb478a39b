//! Made values.

ghost use Rattle.std.specs.Prelude.{◌≡◌, ◌<◌, IfOk, IsSome, Some as Is, length, option_map};
ghost use Rattle.isle_emission.specs.Built.{HasOperand};
ghost use Rattle.isle_emission.specs.Emitter.{setting_in, fields_in};
ghost use Rattle.isle_emission.specs.MadeValues as MadeValues;
ghost use Rattle.isle_operands.specs.Forms.{form_seen};
ghost use Rattle.isle_simulation.specs.Statements as Statements;

use crate::emitter::Emitter;
use isle_core::{BindingId, Fields, List, Text};
use isle_operands::Form;
use isle_scope::Scope;
use isle_tree::{Operand, Read, TExpr};
use std::alloc::AllocError;

// Makes a struct of this name; one without fields is a name.
fn struct_of(ty: Text, fields: Vec<(Text, Read)>) -> TExpr
    ensures { result ≡ MadeValues.struct_of ty fields.items }
{
    if fields.is_empty() {
        return TExpr::Read(Read::Plain(Operand::Name(ty)));
    }
    TExpr::Struct {
        ty,
        fields: List::new(fields),
    }
}

impl Emitter<'_> {
    // Makes the read of a part as it is put into the field of this number.
    fn field_read(
        &self,
        bound: &Scope,
        fields: &Fields,
        index: usize,
        part: BindingId,
    ) -> Result<(Text, Read), AllocError>
        requires field { index < length (fields_in self.now fields.now) }
        requires part { HasOperand (setting_in self.now) bound.now part }
        ensures { IfOk result (λ read. MadeValues.IsReadAt (setting_in self.now) bound.now
            (fields_in self.now fields.now) index part read) }
    {
        let (name, _) = self.field(fields, index)?;
        Ok((name, self.read(bound, false, part)?))
    }

    // Makes the reads of bindings as they are put into these fields, in order: one for each field.
    fn field_reads(
        &self,
        bound: &Scope,
        fields: &Fields,
        parts: &[BindingId],
    ) -> Result<Vec<(Text, Read)>, AllocError>
        requires { IsSome (Statements.field_reads (setting_in self.now) bound.now
            (fields_in self.now fields.now) parts.now) }
        ensures { IfOk result (λ reads. Is reads.items ≡ Statements.field_reads
            (setting_in self.now) bound.now (fields_in self.now fields.now) parts.now) }
    {
        let mut reads = Vec::new(self.alloc);
        for index in 0..parts.len() {
            reads.push(self.field_read(bound, fields, index, parts[index])?)?;
        }
        Ok(reads)
    }

    // Makes a value of a form with these fields.
    fn made_of(&self, form: &Form<'_>, fields: Vec<(Text, Read)>) -> Result<TExpr, AllocError>
        ensures { IfOk result (λ e.
            e ≡ Statements.made_of (setting_in self.now).env (form_seen form.now) fields.items) }
    {
        let ty = self.name(form.ty)?;
        match form.variant {
            Some(variant) => {
                Ok(TExpr::Variant {
                    ty,
                    variant: self.name(variant)?,
                    fields: List::new(fields),
                })
            }
            None => Ok(struct_of(ty, fields)),
        }
    }

    /// Makes what is made of the parts by a form, which is there, as is required.
    pub fn made_in(
        &self,
        bound: &Scope,
        of: Option<Form<'_>>,
        parts: &[BindingId],
    ) -> Result<TExpr, AllocError>
        requires { IsSome (Statements.made_in (setting_in self.now) bound.now
            (option_map form_seen of) parts.now) }
        ensures { IfOk result (λ e. Is e ≡ Statements.made_in (setting_in self.now) bound.now
            (option_map form_seen of.entry) parts.now) }
    {
        let Some(form) = of else { unreachable!() };
        let fields = self.field_reads(bound, form.fields, parts)?;
        self.made_of(&form, fields)
    }
}
