//! The patterns that take variants, structs and options apart.

ghost use Rattle.std.specs.Prelude.{◌≡◌, ◌<◌, IfOk, OnOk, IsSome, Some as Is, length, option_map};
ghost use Rattle.isle_core.specs.HasType.{typed_fields};
ghost use Rattle.isle_core.specs.Rule.{Environment};
ghost use Rattle.isle_emission.specs.Binds as Binds;
ghost use Rattle.isle_emission.specs.Emitter.{setting_in, fields_in};
ghost use Rattle.isle_operands.specs.Forms.{form_seen};
ghost use Rattle.isle_simulation.specs.Patterns as Patterns;

use crate::emitter::Emitter;
use isle_core::{BindingId, Constraint, Fields, List};
use isle_operands::{Form, field_count, is_by_ref, struct_form, variant_form};
use isle_tree::{TBind, TPat};
use std::alloc::AllocError;

// Returns whether no place binds the field of this number.
fn is_left_out(places: &[Option<BindingId>], index: usize) -> bool
    ensures { result ≡ Binds.is_left_out places.now index }
{
    match places.get(index) {
        Some(Some(_)) => false,
        Some(None) => true,
        None => true,
    }
}

// Returns whether a field is left out.
fn leaves_out(fields: &Fields, places: &[Option<BindingId>]) -> bool
    ensures { (env : Environment) →
        result ≡ Patterns.leaves_out (typed_fields env fields.now) places.now }
{
    for index in 0..field_count(fields) {
        if is_left_out(places, index) {
            return true;
        }
    }
    false
}

// Makes the pattern of an option of something, which binds it in the one place, if there is one. There are no more
// places, since an option has one part.
fn some_pattern(places: &[Option<BindingId>]) -> TPat
    requires { IsSome (Patterns.some_pattern places.now) }
    ensures { Is result ≡ Patterns.some_pattern places.now }
{
    match places {
        [] => TPat::Some(None),
        [None] => TPat::Some(None),
        [Some(local)] => TPat::Some(Some(local.index())),
        _ => unreachable!(),
    }
}

impl Emitter<'_> {
    // Makes the field of this number, bound to a local.
    fn field_bind(
        &self,
        fields: &Fields,
        index: usize,
        local: BindingId,
    ) -> Result<TBind, AllocError>
        requires { index < length (fields_in self.now fields.now) }
        ensures { IfOk result (λ bind. Is bind ≡ Binds.field_bind (setting_in self.now).env
            (fields_in self.now fields.now) index local) }
    {
        let (field, ty) = self.field(fields, index)?;
        Ok(TBind {
            field,
            by_ref: is_by_ref(self.typed.context.typeenv, ty),
            local: local.index(),
        })
    }

    // Adds what a place binds of the field of this number.
    fn push_bind(
        &self,
        fields: &Fields,
        index: usize,
        place: Option<BindingId>,
        binds: &mut Vec<TBind>,
    ) -> Result<(), AllocError>
        requires { index < length (fields_in self.now fields.now) }
        ensures { OnOk result (Binds.IsBoundAt (setting_in self.now).env
            (fields_in self.now fields.now) index place binds.old.items binds.new.items) }
    {
        let Some(local) = place else {
            return Ok(());
        };
        binds.push(self.field_bind(fields, index, local)?)?;
        Ok(())
    }

    // Makes the fields that places bind, in order; there is a field for each place.
    fn field_binds(
        &self,
        fields: &Fields,
        places: &[Option<BindingId>],
    ) -> Result<Vec<TBind>, AllocError>
        requires { IsSome (Patterns.field_binds (setting_in self.now).env
            (fields_in self.now fields.now) places.now) }
        ensures { IfOk result (λ binds. Is binds.items ≡ Patterns.field_binds
            (setting_in self.now).env (fields_in self.now fields.now) places.now) }
    {
        let mut binds = Vec::new(self.alloc);
        for index in 0..places.len() {
            self.push_bind(fields, index, places[index], &mut binds)?;
        }
        Ok(binds)
    }

    // Makes the pattern of a form that binds these fields, others being left out or not.
    fn pattern_with(
        &self,
        form: &Form<'_>,
        more: bool,
        binds: Vec<TBind>,
    ) -> Result<TPat, AllocError>
        ensures { IfOk result (λ pat. pat ≡ Patterns.pattern_named (setting_in self.now).env
            (form_seen form.now).ty (form_seen form.now).variant more binds.items) }
    {
        let ty = self.name(form.ty)?;
        match form.variant {
            Some(variant) => {
                Ok(TPat::Variant {
                    ty,
                    variant: self.name(variant)?,
                    binds: List::new(binds),
                    more,
                })
            }
            None => {
                Ok(TPat::Struct {
                    ty,
                    binds: List::new(binds),
                    more,
                })
            }
        }
    }

    // Makes the pattern of a form, which is there, as is required.
    fn form_pattern(
        &self,
        of: Option<Form<'_>>,
        places: &[Option<BindingId>],
    ) -> Result<TPat, AllocError>
        requires { IsSome (Patterns.form_pattern (setting_in self.now).env
            (option_map form_seen of) places.now) }
        ensures { IfOk result (λ pat. Is pat ≡ Patterns.form_pattern (setting_in self.now).env
            (option_map form_seen of.entry) places.now) }
    {
        let Some(form) = of else { unreachable!() };
        let binds = self.field_binds(form.fields, places)?;
        self.pattern_with(&form, leaves_out(form.fields, places), binds)
    }

    /// Makes the pattern of a constraint on a variant, a struct or an option; the others have none, so that none of
    /// them comes here.
    pub fn pattern_of(
        &self,
        constraint: Constraint,
        places: &[Option<BindingId>],
    ) -> Result<TPat, AllocError>
        requires { IsSome (Patterns.pattern_of (setting_in self.now).env constraint places.now) }
        ensures { IfOk result (λ pat.
            Is pat ≡ Patterns.pattern_of (setting_in self.now).env constraint places.now) }
    {
        let context = &self.typed.context;
        match constraint {
            Constraint::Variant { ty, variant } => {
                self.form_pattern(variant_form(context, ty, variant), places)
            }
            Constraint::Struct { ty } => self.form_pattern(struct_form(context, ty), places),
            Constraint::Some => Ok(some_pattern(places)),
            Constraint::ConstBool { .. }
            | Constraint::ConstInt { .. }
            | Constraint::ConstPrim { .. } => unreachable!(),
        }
    }
}
