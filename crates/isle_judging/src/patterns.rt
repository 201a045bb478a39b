//! Which patterns are of a form that is built.

ghost use Rattle.std.specs.Prelude.{◌↔◌, IsTrue};
ghost use Rattle.std.specs.List.{AllByRecursion};
ghost use Rattle.isle_tree.specs.WellFormed.{IsConstant, IsBind, IsPattern};

use crate::shapes::is_operand;
use isle_spelling::{is_field_name, is_identifier};
use isle_tree::{Operand, TBind, TPat};

// Whether an operand is a constant of a pattern.
fn is_constant(o: &Operand) -> bool
    ensures { IsTrue result ↔ IsConstant o.now }
{
    match o {
        Operand::Local(_) | Operand::Arg(_) => false,
        Operand::Bool(_) | Operand::Int(..) | Operand::Raw(_) | Operand::Name(_) => is_operand(o),
    }
}

// Whether all fields may be bound.
fn are_binds(binds: &[TBind]) -> bool
    ensures { IsTrue result ↔ AllByRecursion IsBind binds.now }
{
    for bind in binds {
        if !is_field_name(bind.field.as_str()) {
            return false;
        }
    }
    true
}

// Whether a variant may be matched on so.
fn is_variant_pattern(ty: &str, variant: &str, binds: &[TBind], more: bool) -> bool
    ensures { IsTrue result ↔ IsPattern (TPat.Variant ty.now variant.now binds.now more) }
{
    if !is_identifier(ty) {
        return false;
    }
    if !is_identifier(variant) {
        return false;
    }
    are_binds(binds)
}

// Whether a struct may.
fn is_struct_pattern(ty: &str, binds: &[TBind], more: bool) -> bool
    ensures { IsTrue result ↔ IsPattern (TPat.Struct ty.now binds.now more) }
{
    if !is_identifier(ty) {
        return false;
    }
    are_binds(binds)
}

/// Tells whether a pattern is of a form that is built.
pub fn is_pattern(pat: &TPat) -> bool
    ensures { IsTrue result ↔ IsPattern pat.now }
{
    match pat {
        TPat::Const(o) => is_constant(o),
        TPat::Variant {
            ty,
            variant,
            binds,
            more,
        } => is_variant_pattern(ty.as_str(), variant.as_str(), binds.as_slice(), *more),
        TPat::Struct { ty, binds, more } => {
            is_struct_pattern(ty.as_str(), binds.as_slice(), *more)
        }
        TPat::Some(_) => true,
    }
}
