//! The types of bindings.

ghost use Rattle.std.specs.Prelude.{◌≡◌, List as ListOf, map, option_map, slice_get, IfOk};
ghost use Rattle.isle_core.specs.declared.types.Term.{Term as TermOf};
ghost use Rattle.isle_core.specs.Path.{Path, VariantField, StructField, Part, path_over, at};
ghost use Rattle.isle_core.specs.Rule.{Environment};
ghost use Rattle.isle_operands.specs.BindingTypes.{types_in};
ghost use Rattle.isle_operands.specs.Contexts.{env_of, setting_of};
ghost use Rattle.isle_simulation.specs.References as References;
ghost use Rattle.isle_simulation.specs.References.{extractor_at, type_at};

use crate::constants::ConstTypes;
use crate::context::Context;
use crate::forms::{field_type, struct_form, variant_form};
use isle_core::{Binding, BindingId, TermId, TupleIndex, TypeId, VariantId};
use std::alloc::{AllocError, Global};

/// Returns the type if there is only one.
pub fn one_result(tys: &[TypeId]) -> Option<TypeId>
    ensures { result ≡ References.one_result tys.now }
{
    match tys {
        [ty] => Some(*ty),
        _ => None,
    }
}

// Returns the type of the one result of a term's extractor, which gives what the term takes.
fn extracted_type(context: &Context<'_>, term: TermId) -> Option<TypeId>
    ensures { result ≡ References.result_type (slice_get (env_of context.now).terms term.0) }
{
    one_result(
        context
            .termenv
            .terms
            .as_slice()
            .get(term.index())?
            .arg_tys
            .as_slice(),
    )
}

// Returns the type of what a term gives.
fn result_type(context: &Context<'_>, term: TermId) -> Option<TypeId>
    ensures { result ≡ option_map (λ t. t.ret_ty) (slice_get (env_of context.now).terms term.0) }
{
    Some(context.termenv.terms.as_slice().get(term.index())?.ret_ty)
}

/// Returns the type of the binding of this number, if these are the types.
pub fn type_of(types: &[Option<TypeId>], binding: BindingId) -> Option<TypeId>
    ensures { (env : Environment) → (t : TermOf) → (ps : ListOf Path)
        → types.now ≡ map (type_at env t) ps → result ≡ type_at env t (at ps binding) }
{
    match types.get(binding.index()) {
        Some(ty) => *ty,
        None => None,
    }
}

// Returns the type of a field of a variant of the type.
fn variant_field(
    context: &Context<'_>,
    source: Option<TypeId>,
    variant: VariantId,
    field: TupleIndex,
) -> Option<TypeId>
    ensures { (p : Path) → source ≡ type_at (env_of context.now) context.now.term.now p
        → result ≡ type_at (env_of context.now) context.now.term.now
        (VariantField variant field.0 p) }
{
    match source {
        Some(ty) => field_type(variant_form(context, ty, variant), field.index()),
        None => None,
    }
}

// Returns the type of a field of the struct.
fn struct_field(context: &Context<'_>, source: Option<TypeId>, field: TupleIndex) -> Option<TypeId>
    ensures { (p : Path) → source ≡ type_at (env_of context.now) context.now.term.now p
        → result ≡ type_at (env_of context.now) context.now.term.now (StructField field.0 p) }
{
    match source {
        Some(ty) => field_type(struct_form(context, ty), field.index()),
        None => None,
    }
}

// Returns the extractor whose answer the binding of this number has, if these are the extractors.
fn answered_by(extractors: &[Option<TermId>], binding: BindingId) -> Option<TermId>
    ensures { (ps : ListOf Path) → extractors.now ≡ map extractor_at ps
        → result ≡ extractor_at (at ps binding) }
{
    match extractors.get(binding.index()) {
        Some(term) => *term,
        None => None,
    }
}

// Returns the extractor whose answer a binding has, over those of the bindings before it.
fn extractor_of(extractors: &[Option<TermId>], binding: &Binding) -> Option<TermId>
    ensures { (ps : ListOf Path) → extractors.now ≡ map extractor_at ps
        → result ≡ extractor_at (path_over ps binding.now) }
{
    match binding {
        Binding::Extractor { term, .. } => Some(*term),
        Binding::MatchSome { source } | Binding::Iterator { source } => {
            answered_by(extractors, *source)
        }
        _ => None,
    }
}

// Returns the type of a part of an extractor's answer.
fn part_type(context: &Context<'_>, extractor: Option<TermId>, field: TupleIndex) -> Option<TypeId>
    ensures { (p : Path) → extractor ≡ extractor_at p
        → result ≡ type_at (env_of context.now) context.now.term.now (Part field.0 p) }
{
    context
        .termenv
        .terms
        .as_slice()
        .get(extractor?.index())?
        .arg_tys
        .as_slice()
        .get(field.index())
        .copied()
}

// Returns the type of a binding over those of the bindings before it, and their extractors.
fn binding_type(
    context: &Context<'_>,
    consts: &ConstTypes<'_>,
    types: &[Option<TypeId>],
    extractors: &[Option<TermId>],
    binding: &Binding,
) -> Option<TypeId>
    requires { consts.now ≡ context.now.typeenv.now.consts }
    ensures { (ps : ListOf Path)
        → types.now ≡ map (type_at (env_of context.now) context.now.term.now) ps
        → extractors.now ≡ map extractor_at ps
        → result ≡ type_at (env_of context.now) context.now.term.now (path_over ps binding.now) }
{
    match binding {
        Binding::ConstBool { ty, .. } | Binding::ConstInt { ty, .. } => Some(*ty),
        Binding::ConstPrim { val } => consts.of(*val),
        Binding::Argument { index } => context.term.arg_tys.as_slice().get(*index).copied(),
        Binding::Constructor { term, .. } => result_type(context, *term),
        Binding::MakeVariant { ty, .. } | Binding::MakeStruct { ty, .. } => Some(*ty),
        Binding::MatchVariant {
            source,
            variant,
            field,
        } => variant_field(context, type_of(types, *source), *variant, *field),
        Binding::ExtractStruct { source, field } => {
            struct_field(context, type_of(types, *source), *field)
        }
        Binding::MatchSome { source } | Binding::Iterator { source } => type_of(types, *source),
        Binding::Extractor { term, .. } => extracted_type(context, *term),
        Binding::MatchTuple { source, field } => {
            part_type(context, answered_by(extractors, *source), *field)
        }
        Binding::MakeSome { .. } => None,
    }
}

/// Makes the types of the bindings, in order: of each that has one. The constants are those of the context.
pub fn binding_types(
    alloc: Global,
    context: &Context<'_>,
    consts: &ConstTypes<'_>,
) -> Result<Vec<Option<TypeId>>, AllocError>
    requires { consts.now ≡ context.now.typeenv.now.consts }
    ensures { IfOk result (λ types. types.items ≡ types_in (setting_of context.now)) }
{
    let mut types = Vec::new(alloc);
    let mut extractors = Vec::new(alloc);
    for binding in context.bindings {
        let ty = binding_type(
            context,
            consts,
            types.as_slice(),
            extractors.as_slice(),
            binding,
        );
        let extractor = extractor_of(extractors.as_slice(), binding);
        types.push(ty)?;
        extractors.push(extractor)?;
    }
    Ok(types)
}
