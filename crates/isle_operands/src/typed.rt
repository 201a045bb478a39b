//! A context with the types of its bindings.

ghost use Rattle.std.specs.Prelude.{◌≡◌};
ghost use Rattle.isle_operands.specs.BindingTypes.{types_in};
ghost use Rattle.isle_operands.specs.Contexts.{setting_of};

use crate::context::Context;
use isle_core::TypeId;

/// A context, and the type of each of its bindings that has one.
#[derive(Clone, Copy)]
pub struct Typed<'a> {
    pub context: Context<'a>,
    pub types: &'a [Option<TypeId>],
    pub ghost typed: { types.now ≡ types_in (setting_of context) },
}
