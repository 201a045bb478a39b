//! What stands for the values of bindings.

ghost use Rattle.std.specs.Prelude.{◌≡◌, Some as Is, IfOk, List as ListOf};
ghost use Rattle.isle_core.specs.Constants.{int_value};
ghost use Rattle.isle_core.specs.Path.{Path, ConstPrim, MadeStruct, path_over, at, at_all, paths_of};
ghost use Rattle.isle_operands.specs.Contexts.{env_of, bindings_in};
ghost use Rattle.isle_simulation.specs.Operands as Operands;

use crate::context::Context;
use crate::forms::struct_form;
use crate::signature::sym_name;
use isle_core::{Binding, BindingId, BuiltinType, Constraint, Sym, TypeDef, TypeId};
use isle_scope::Scope;
use isle_tree::Operand;
use std::alloc::{AllocError, Global};

// Returns a number as an operand of a type, if it has numbers.
fn number(context: &Context<'_>, ty: TypeId, val: i128) -> Option<Operand>
    ensures { result ≡ Operands.constant (int_value (env_of context.now) ty val) }
{
    match context.typeenv.types.as_slice().get(ty.index()) {
        Some(TypeDef::Builtin(BuiltinType::Int(ty))) => Some(Operand::Int(*ty, val)),
        Some(TypeDef::Builtin(BuiltinType::Bool))
        | Some(TypeDef::Primitive { .. })
        | Some(TypeDef::Enum { .. })
        | Some(TypeDef::Struct { .. })
        | None => Some(Operand::Raw(val)),
    }
}

// Makes the name of a symbol as an operand.
fn named(alloc: Global, context: &Context<'_>, name: Sym) -> Result<Operand, AllocError>
    ensures { IfOk result (λ o. Is o ≡ Operands.in_place (env_of context.now) 0 (ConstPrim name)) }
{
    Ok(Operand::Name(sym_name(alloc, context.typeenv, name)?))
}

// Makes what is read in place for a struct with these fields: its name if there are none, or else the local of this
// number.
fn struct_operand(
    alloc: Global,
    context: &Context<'_>,
    local: BindingId,
    ty: TypeId,
    fields: &[BindingId],
) -> Result<Option<Operand>, AllocError>
    ensures { IfOk result (λ o.
        (ps : ListOf Path)
        → o ≡ Operands.in_place (env_of context.now) local.0
        (MadeStruct ty (at_all ps fields.now))) }
{
    if !fields.is_empty() {
        return Ok(Some(Operand::Local(local.index())));
    }
    match struct_form(context, ty) {
        Some(form) => Ok(Some(named(alloc, context, form.ty)?)),
        None => Ok(None),
    }
}

// Makes what is read in place for a binding of this number.
fn of_binding(
    alloc: Global,
    context: &Context<'_>,
    local: BindingId,
    binding: &Binding,
) -> Result<Option<Operand>, AllocError>
    ensures { IfOk result (λ o.
        (ps : ListOf Path)
        → o ≡ Operands.in_place (env_of context.now) local.0 (path_over ps binding.now)) }
{
    match binding {
        Binding::Argument { index } => Ok(Some(Operand::Arg(*index))),
        Binding::ConstBool { val, .. } => Ok(Some(Operand::Bool(*val))),
        Binding::ConstInt { val, ty } => Ok(number(context, *ty, *val)),
        Binding::ConstPrim { val } => Ok(Some(named(alloc, context, *val)?)),
        Binding::MakeVariant { .. } => Ok(Some(Operand::Local(local.index()))),
        Binding::MakeStruct { ty, fields } => {
            struct_operand(alloc, context, local, *ty, fields.as_slice())
        }
        _ => Ok(None),
    }
}

/// Makes what is read in place for the binding of this number, if something is.
pub fn in_place(
    alloc: Global,
    context: &Context<'_>,
    binding: BindingId,
) -> Result<Option<Operand>, AllocError>
    ensures { IfOk result (λ o.
        o ≡ Operands.in_place (env_of context.now) binding.0
        (at (paths_of (bindings_in context.now)) binding)) }
{
    match context.bindings.get(binding.index()) {
        Some(of) => Ok(of_binding(alloc, context, binding, of)?),
        None => Ok(None),
    }
}

/// Makes what a constraint tests for, if it tests for a value that has an operand.
pub fn tested(
    alloc: Global,
    context: &Context<'_>,
    constraint: Constraint,
) -> Result<Option<Operand>, AllocError>
    ensures { IfOk result (λ o. o ≡ Operands.tested (env_of context.now) constraint) }
{
    match constraint {
        Constraint::ConstBool { val } => Ok(Some(Operand::Bool(val))),
        Constraint::ConstInt { val, ty } => Ok(number(context, ty, val)),
        Constraint::ConstPrim { val } => Ok(Some(named(alloc, context, val)?)),
        Constraint::Variant { .. } | Constraint::Struct { .. } | Constraint::Some => Ok(None),
    }
}

/// Returns whether the binding's local is bound.
pub fn is_bound(bound: &Scope, binding: BindingId) -> bool
    ensures { result ≡ Operands.is_bound bound.now binding }
{
    bound.has(binding.index())
}

/// Makes the binding's local if it is bound, or else what is read in place.
pub fn operand_of(
    alloc: Global,
    context: &Context<'_>,
    bound: &Scope,
    binding: BindingId,
) -> Result<Option<Operand>, AllocError>
    ensures { IfOk result (λ o.
        o ≡ Operands.operand_of (env_of context.now) (bindings_in context.now) bound.now binding) }
{
    if is_bound(bound, binding) {
        return Ok(Some(Operand::Local(binding.index())));
    }
    in_place(alloc, context, binding)
}
