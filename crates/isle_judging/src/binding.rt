//! What patterns may be read over, and what they bind.

ghost use Rattle.std.specs.Prelude.{◌≡◌, ◌++◌, ◌↔◌, IsTrue, IfOk, OnOk};
ghost use Rattle.isle_tree.specs.WellFormed.{read_holds, ReadsPattern, field_locals, inner_locals, pattern_locals};

use crate::holding::{inner_holds, is_value, read_holds};
use isle_scope::Table;
use isle_tree::{Holds, Item, Read, TBind, TPat};
use std::alloc::AllocError;

// Whether a pattern may be read over what is held.
fn reads_pattern(pat: &TPat, holds: Option<Holds>) -> bool
    ensures { IsTrue result ↔ ReadsPattern pat.now holds }
{
    match pat {
        TPat::Const(_) | TPat::Variant { .. } | TPat::Struct { .. } => is_value(holds),
        TPat::Some(_) => inner_holds(holds).is_some(),
    }
}

// Binds a local to each field, which is a value.
fn bind_fields(bound: &mut Table<Holds>, binds: &[TBind]) -> Result<(), AllocError>
    ensures { OnOk result (bound.new ≡ bound.old ++ field_locals binds.now) }
{
    for bind in binds {
        bound.bind(bind.local, Holds::One(Item::Value))?;
    }
    Ok(())
}

// Binds a local to what is within an option.
fn bind_inner(
    bound: &mut Table<Holds>,
    local: Option<usize>,
    holds: Option<Holds>,
) -> Result<(), AllocError>
    ensures { OnOk result (bound.new ≡ bound.old ++ inner_locals local holds) }
{
    match (local, holds) {
        (Some(local), Some(holds)) => bound.bind(local, holds),
        (None, _) | (Some(_), None) => Ok(()),
    }
}

// Binds the locals of a pattern.
fn bind_pattern(
    bound: &mut Table<Holds>,
    pat: &TPat,
    holds: Option<Holds>,
) -> Result<(), AllocError>
    ensures { OnOk result (bound.new ≡ bound.old ++ pattern_locals pat.now holds) }
{
    match pat {
        TPat::Const(_) => Ok(()),
        TPat::Variant { binds, .. } | TPat::Struct { binds, .. } => {
            bind_fields(bound, binds.as_slice())
        }
        TPat::Some(local) => bind_inner(bound, *local, inner_holds(holds)),
    }
}

/// Binds the locals of a pattern over what is read, and tells whether it may be read so. The only error is want of
/// memory.
pub fn enter(
    bound: &mut Table<Holds>,
    params: usize,
    pat: &TPat,
    read: &Read,
) -> Result<bool, AllocError>
    ensures reads { IfOk result (λ b.
        IsTrue b ↔ ReadsPattern pat.now (read_holds params bound.old read.now)) }
    ensures bound { OnOk result
        (bound.new ≡ bound.old ++ pattern_locals pat.now (read_holds params bound.old read.now)) }
{
    let holds = read_holds(bound, params, read);
    bind_pattern(bound, pat, holds)?;
    Ok(reads_pattern(pat, holds))
}
