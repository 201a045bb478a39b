//! What is known of the locals that patterns bind.

ghost use Rattle.std.specs.Prelude.{◌≡◌, ◌++◌, OnOk};
ghost use Rattle.isle_tree.specs.Views.{program};
ghost use Rattle.isle_places.specs.AskedViews.{asked as asked_of};
ghost use Rattle.isle_places.specs.Told.{binds_told, pattern_told};
ghost use Rattle.isle_places.specs.ToldViews.{told, tells};

use crate::asked::{Asked, struct_asked, variant_asked};
use crate::field_types::field_told;
use crate::signatures::Signatures;
use crate::told::{Told, within};
use isle_scope::Table;
use isle_tree::{TBind, TPat};
use std::alloc::{AllocError, Global};

// Binds locals to fields.
fn bind_fields<'s>(
    alloc: Global,
    bound: &mut Table<Told<'s>>,
    asked: Asked<'s, '_>,
    binds: &[TBind],
) -> Result<(), AllocError>
    ensures { OnOk result
        (tells bound.new ≡ tells bound.old ++ binds_told (asked_of asked.entry) binds.now) }
{
    for bind in binds {
        let field = field_told(alloc, asked, bind.field.as_str())?;
        bound.bind(bind.local, field)?;
    }
    Ok(())
}

/// Binds the locals of a pattern that is held against something. The only error is want of memory.
pub fn bind_pattern<'s>(
    alloc: Global,
    signatures: &'s Signatures<'_>,
    bound: &mut Table<Told<'s>>,
    pat: &'s TPat,
    held: Told<'s>,
) -> Result<(), AllocError>
    ensures { OnOk result
        (tells bound.new
        ≡ tells bound.old ++ pattern_told (program signatures.now) pat.now (told held.entry)) }
{
    match pat {
        TPat::Const(_) | TPat::Some(None) => Ok(()),
        TPat::Variant {
            ty,
            variant,
            binds,
            ..
        } => {
            let name = ty.as_str();
            let asked = variant_asked(signatures.types(), name, name, variant.as_str());
            bind_fields(alloc, bound, asked, binds.as_slice())
        }
        TPat::Struct { ty, binds, .. } => {
            let asked = struct_asked(signatures.types(), ty.as_str(), ty.as_str());
            bind_fields(alloc, bound, asked, binds.as_slice())
        }
        TPat::Some(Some(local)) => bound.bind(*local, within(held)),
    }
}
