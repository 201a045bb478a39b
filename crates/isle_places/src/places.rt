//! The places whose types a program fixes, each with what stands there.

ghost use Rattle.std.specs.Prelude.{◌≡◌, ◌++◌, OnOk};
ghost use Rattle.isle_tree.specs.Views.{function, program};
ghost use Rattle.isle_places.specs.AskedViews.{asked as asked_of};
ghost use Rattle.isle_places.specs.Places as places_of;
ghost use Rattle.isle_places.specs.Signatures.{type_names};
ghost use Rattle.isle_places.specs.ToldViews.{told as seen, tells, placed};

use crate::asked::{Asked, struct_asked, variant_asked};
use crate::field_types::field_told;
use crate::signatures::Signatures;
use crate::told::{Told, operand_of, operand_told, param_told};
use isle_core::{ReturnKind, Text};
use isle_scope::Table;
use isle_tree::{Function, Operand, Read, TCall, TExpr, TPat, Ty};
use std::alloc::{AllocError, Global};

// Appends an operand where the type of a value is told.
fn push_told<'s>(
    found: &mut Vec<(&'s Operand, &'s str)>,
    operand: &'s Operand,
    told: Told<'s>,
) -> Result<(), AllocError>
    ensures { OnOk result
        (placed found.new.items
        ≡ placed found.old.items ++ places_of.where_told operand.now (seen told.entry)) }
{
    match told {
        Told::AValue(ty) => Ok(found.push((operand, ty))?),
        Told::AnOption(_)
        | Told::ATuple(_)
        | Told::AnOptionalTuple(_)
        | Told::AList(_)
        | Told::AListOfTuples(_)
        | Told::Untold => Ok(()),
    }
}

/// Appends an operand with its own type, or else with that of its place, where it is told. The only error is want of
/// memory.
pub fn push_at<'s>(
    found: &mut Vec<(&'s Operand, &'s str)>,
    operand: &'s Operand,
    place: Told<'s>,
) -> Result<(), AllocError>
    ensures { OnOk result
        (placed found.new.items
        ≡ placed found.old.items ++ places_of.at operand.now (seen place.entry)) }
{
    match operand {
        Operand::Bool(_) => push_told(found, operand, Told::AValue("bool")),
        Operand::Int(ty, _) => push_told(found, operand, Told::AValue(ty.name())),
        Operand::Local(_) | Operand::Arg(_) | Operand::Raw(_) | Operand::Name(_) => {
            push_told(found, operand, place)
        }
    }
}

// Appends the places of arguments.
fn push_reads<'s>(
    found: &mut Vec<(&'s Operand, &'s str)>,
    reads: &'s [Read],
    params: &'s [Ty],
) -> Result<(), AllocError>
    ensures { OnOk result
        (placed found.new.items
        ≡ placed found.old.items ++ places_of.reads_places reads.now (type_names params.now)) }
{
    for index in 0..reads.len() {
        push_at(found, operand_of(&reads[index]), param_told(params, index))?;
    }
    Ok(())
}

/// Appends the places of the arguments of a call. The only error is want of memory.
pub fn push_call<'s>(
    signatures: &'s Signatures<'_>,
    found: &mut Vec<(&'s Operand, &'s str)>,
    call: &'s TCall,
) -> Result<(), AllocError>
    ensures { OnOk result
        (placed found.new.items
        ≡ placed found.old.items ++ places_of.call_places (program signatures.now) call.now) }
{
    match signatures.of(&call.callee) {
        Some(signature) => push_reads(found, call.args.as_slice(), signature.params),
        None => push_reads(found, call.args.as_slice(), &[]),
    }
}

// Appends the places of the fields of a made value.
fn push_fields<'s>(
    alloc: Global,
    found: &mut Vec<(&'s Operand, &'s str)>,
    asked: Asked<'s, '_>,
    fields: &'s [(Text, Read)],
) -> Result<(), AllocError>
    ensures { OnOk result
        (placed found.new.items
        ≡ placed found.old.items ++ places_of.fields_places (asked_of asked.entry) fields.now) }
{
    for field in fields {
        let place = field_told(alloc, asked, field.0.as_str())?;
        push_at(found, operand_of(&field.1), place)?;
    }
    Ok(())
}

/// Appends the places in what is computed. The only error is want of memory.
pub fn push_computed<'s>(
    alloc: Global,
    signatures: &'s Signatures<'_>,
    found: &mut Vec<(&'s Operand, &'s str)>,
    computed: &'s TExpr,
) -> Result<(), AllocError>
    ensures { OnOk result
        (placed found.new.items
        ≡ placed found.old.items ++ places_of.expr_places (program signatures.now) computed.now) }
{
    match computed {
        TExpr::Read(read) | TExpr::Some(read) => push_at(found, operand_of(read), Told::Untold),
        TExpr::Call { call, .. } => push_call(signatures, found, call),
        TExpr::Variant {
            ty,
            variant,
            fields,
        } => {
            let name = ty.as_str();
            let asked = variant_asked(signatures.types(), name, name, variant.as_str());
            push_fields(alloc, found, asked, fields.as_slice())
        }
        TExpr::Struct { ty, fields } => {
            let asked = struct_asked(signatures.types(), ty.as_str(), ty.as_str());
            push_fields(alloc, found, asked, fields.as_slice())
        }
        TExpr::Try { source, .. } | TExpr::Tuple(source, _) => push_at(found, source, Told::Untold),
    }
}

// What is known of a value that a function returns.
fn plain_told<'s>(f: &'s Function) -> Told<'s>
    ensures { seen result ≡ places_of.plain_told (function f.now).kind (function f.now).result }
{
    match f.kind {
        ReturnKind::Plain => Told::AValue(f.result.as_str()),
        ReturnKind::Option | ReturnKind::Iterator => Told::Untold,
    }
}

// What is known of what it returns an option of.
fn option_told<'s>(f: &'s Function) -> Told<'s>
    ensures { seen result ≡ places_of.option_told (function f.now).kind (function f.now).result }
{
    match f.kind {
        ReturnKind::Option => Told::AValue(f.result.as_str()),
        ReturnKind::Plain | ReturnKind::Iterator => Told::Untold,
    }
}

/// Appends the places in what a function returns. The only error is want of memory.
pub fn push_returned<'s>(
    alloc: Global,
    signatures: &'s Signatures<'_>,
    f: &'s Function,
    found: &mut Vec<(&'s Operand, &'s str)>,
    computed: &'s TExpr,
) -> Result<(), AllocError>
    ensures { OnOk result (placed found.new.items
        ≡ placed found.old.items
        ++ places_of.returned (program signatures.now) (function f.now).kind (function f.now).result
        computed.now) }
{
    match computed {
        TExpr::Read(read) => push_at(found, operand_of(read), plain_told(f)),
        TExpr::Some(read) => push_at(found, operand_of(read), option_told(f)),
        TExpr::Call { .. }
        | TExpr::Variant { .. }
        | TExpr::Struct { .. }
        | TExpr::Try { .. }
        | TExpr::Tuple(..) => push_computed(alloc, signatures, found, computed),
    }
}

/// Appends the places of the two sides of a test. The only error is want of memory.
pub fn push_both<'s>(
    f: &'s Function,
    bound: &Table<Told<'s>>,
    found: &mut Vec<(&'s Operand, &'s str)>,
    a: &'s Operand,
    b: &'s Operand,
) -> Result<(), AllocError>
    ensures { OnOk result
        (placed found.new.items
        ≡ placed found.old.items
        ++ places_of.both_places (function f.now) (tells bound.now) a.now b.now) }
{
    push_at(found, a, operand_told(f, bound, b))?;
    push_at(found, b, operand_told(f, bound, a))
}

/// Appends the places of a pattern and of what it is held against. The only error is want of memory.
pub fn push_pattern<'s>(
    f: &'s Function,
    bound: &Table<Told<'s>>,
    found: &mut Vec<(&'s Operand, &'s str)>,
    pat: &'s TPat,
    read: &'s Read,
) -> Result<(), AllocError>
    ensures { OnOk result
        (placed found.new.items
        ≡ placed found.old.items
        ++ places_of.pattern_places (function f.now) (tells bound.now) pat.now read.now) }
{
    match pat {
        TPat::Const(operand) => push_both(f, bound, found, operand, operand_of(read)),
        TPat::Variant { ty, .. } | TPat::Struct { ty, .. } => {
            push_at(found, operand_of(read), Told::AValue(ty.as_str()))
        }
        TPat::Some(_) => push_at(found, operand_of(read), Told::Untold),
    }
}
