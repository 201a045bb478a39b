//! How operands are read: by reference, by a copy, or as they are.

ghost use Rattle.std.specs.Prelude.{◌≡◌, slice_get, false as No};
ghost use Rattle.std.specs.Option.{option_map_or};
ghost use Rattle.isle_operands.specs.BindingTypes as BindingTypes;
ghost use Rattle.isle_operands.specs.Contexts.{bindings_in};
ghost use Rattle.isle_operands.specs.Typed.{setting_in};
ghost use Rattle.isle_simulation.specs.References as References;

use crate::context::Context;
use crate::signature::is_by_ref;
use crate::typed::Typed;
use crate::types::type_of;
use isle_core::{Binding, BindingId, TypeId};
use isle_tree::{Operand, Read};

/// Returns whether a value of the type stands behind a reference, if there is a type.
pub fn is_declared(typed: &Typed<'_>, ty: Option<TypeId>) -> bool
    ensures { result ≡ option_map_or (References.is_declared (setting_in typed.now).env) ty No }
{
    match ty {
        Some(ty) => is_by_ref(typed.context.typeenv, ty),
        None => false,
    }
}

// Returns whether a binding is of a value that is made here, is a part of a tuple or an item of a list.
fn is_owned(context: &Context<'_>, binding: BindingId) -> bool
    ensures { result ≡ BindingTypes.is_owned (slice_get (bindings_in context.now) binding.0) }
{
    match context.bindings.get(binding.index()) {
        Some(
            Binding::MakeVariant { .. }
            | Binding::MakeStruct { .. }
            | Binding::Iterator { .. }
            | Binding::MatchTuple { .. },
        ) => true,
        _ => false,
    }
}

/// Returns whether what stands for a binding is a reference.
pub fn is_reference(typed: &Typed<'_>, binding: BindingId) -> bool
    ensures { result ≡ References.is_reference_in (setting_in typed.now) binding }
{
    if is_owned(&typed.context, binding) {
        return false;
    }
    is_declared(typed, type_of(typed.types, binding))
}

/// Returns a read of an operand that is a reference or not, where one is wanted or not.
pub fn read_as(wanted: bool, is: bool, operand: Operand) -> Read
    ensures { result ≡ References.read_as wanted is operand }
{
    if wanted == is {
        Read::Plain(operand)
    } else if wanted {
        Read::Borrow(operand)
    } else {
        Read::Clone(operand)
    }
}
