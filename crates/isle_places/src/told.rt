//! What is known of the types of operands, locals and what is computed.

ghost use Rattle.std.specs.Prelude.{◌≡◌, slice_get};
ghost use Rattle.isle_tree.specs.Views.{function, program};
ghost use Rattle.isle_places.specs.Signatures.{signature_of};
ghost use Rattle.isle_places.specs.Told as told_of;
ghost use Rattle.isle_places.specs.ToldViews.{told, tells};

use crate::signatures::Signatures;
use isle_core::Text;
use isle_scope::Table;
use isle_tree::{Function, Operand, Read, TCall, TExpr, Ty};

/// A value of the type of this name, a tuple of values of these types, an option of either, a list of either, or
/// something whose type isn't told.
#[derive(Clone, Copy)]
pub enum Told<'s> {
    AValue(&'s str),
    AnOption(&'s str),
    ATuple(&'s [Text]),
    AnOptionalTuple(&'s [Text]),
    AList(&'s str),
    AListOfTuples(&'s [Text]),
    Untold,
}

/// Returns what is known of what is within an option.
pub fn within<'s>(of: Told<'s>) -> Told<'s>
    ensures { told result ≡ told_of.within (told of.entry) }
{
    match of {
        Told::AnOption(ty) => Told::AValue(ty),
        Told::AnOptionalTuple(tys) => Told::ATuple(tys),
        Told::AValue(_)
        | Told::ATuple(_)
        | Told::AList(_)
        | Told::AListOfTuples(_)
        | Told::Untold => Told::Untold,
    }
}

// What is known of an option of a value.
fn option_of<'s>(of: Told<'s>) -> Told<'s>
    ensures { told result ≡ told_of.option_of (told of.entry) }
{
    match of {
        Told::AValue(ty) => Told::AnOption(ty),
        Told::AnOption(_)
        | Told::ATuple(_)
        | Told::AnOptionalTuple(_)
        | Told::AList(_)
        | Told::AListOfTuples(_)
        | Told::Untold => Told::Untold,
    }
}

// What is known of a value of the type at an index, if there is one.
fn type_told<'s>(tys: &'s [Text], index: usize) -> Told<'s>
    ensures { told result ≡ told_of.typed_told (slice_get tys.now index) }
{
    match tys.get(index) {
        Some(ty) => Told::AValue(ty.as_str()),
        None => Told::Untold,
    }
}

// What is known of a part of a tuple.
fn part_told<'s>(of: Told<'s>, part: usize) -> Told<'s>
    ensures { told result ≡ told_of.part_told part (told of.entry) }
{
    match of {
        Told::ATuple(tys) => type_told(tys, part),
        Told::AValue(_)
        | Told::AnOption(_)
        | Told::AnOptionalTuple(_)
        | Told::AList(_)
        | Told::AListOfTuples(_)
        | Told::Untold => Told::Untold,
    }
}

/// Returns what is known of an item of a list.
pub fn item_told<'s>(of: Told<'s>) -> Told<'s>
    ensures { told result ≡ told_of.item_told (told of.entry) }
{
    match of {
        Told::AList(ty) => Told::AValue(ty),
        Told::AListOfTuples(tys) => Told::ATuple(tys),
        Told::AValue(_)
        | Told::AnOption(_)
        | Told::ATuple(_)
        | Told::AnOptionalTuple(_)
        | Told::Untold => Told::Untold,
    }
}

/// Returns the operand of a read.
pub fn operand_of(read: &Read) -> &Operand
    ensures { result.now ≡ told_of.operand_of read.now }
{
    match read {
        Read::Plain(operand) | Read::Borrow(operand) | Read::Clone(operand) => operand,
    }
}

/// Returns what is known of a parameter.
pub fn param_told<'s>(params: &'s [Ty], index: usize) -> Told<'s>
    ensures { told result ≡ told_of.param_told (slice_get params.now index) }
{
    match params.get(index) {
        Some(ty) => Told::AValue(ty.name.as_str()),
        None => Told::Untold,
    }
}

/// Returns what is known of a local.
pub fn local_told<'s>(bound: &Table<Told<'s>>, local: usize) -> Told<'s>
    ensures { told result ≡ told_of.look_told (tells bound.now) local }
{
    match bound.get(local) {
        Some(found) => *found,
        None => Told::Untold,
    }
}

/// Returns what is known of an operand.
pub fn operand_told<'s>(f: &'s Function, bound: &Table<Told<'s>>, operand: &Operand) -> Told<'s>
    ensures { told result ≡ told_of.operand_told (function f.now) (tells bound.now) operand.now }
{
    match operand {
        Operand::Local(local) => local_told(bound, *local),
        Operand::Arg(index) => param_told(f.params.as_slice(), *index),
        Operand::Bool(_) => Told::AValue("bool"),
        Operand::Int(ty, _) => Told::AValue(ty.name()),
        Operand::Raw(_) | Operand::Name(_) => Told::Untold,
    }
}

/// Returns what is known of the list that a call gives.
pub fn list_told<'s>(signatures: &'s Signatures<'_>, call: &'s TCall) -> Told<'s>
    ensures { told result
        ≡ told_of.list_told (signature_of (program signatures.now) call.now.callee) }
{
    match signatures.of(&call.callee) {
        Some(signature) => signature.answers_told(),
        None => Told::Untold,
    }
}

/// Returns what is known of what is computed.
pub fn expr_told<'s>(
    signatures: &'s Signatures<'_>,
    f: &'s Function,
    bound: &Table<Told<'s>>,
    computed: &'s TExpr,
) -> Told<'s>
    ensures { told result
        ≡ told_of.expr_told (program signatures.now) (function f.now) (tells bound.now)
        computed.now }
{
    match computed {
        TExpr::Read(read) => operand_told(f, bound, operand_of(read)),
        TExpr::Call { call, .. } => match signatures.of(&call.callee) {
            Some(signature) => signature.answer_told(),
            None => Told::Untold,
        },
        TExpr::Variant { ty, .. } | TExpr::Struct { ty, .. } => Told::AValue(ty.as_str()),
        TExpr::Some(read) => option_of(operand_told(f, bound, operand_of(read))),
        TExpr::Try { source, .. } => within(operand_told(f, bound, source)),
        TExpr::Tuple(source, part) => part_told(operand_told(f, bound, source), *part),
    }
}
