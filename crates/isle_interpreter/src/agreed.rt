//! The type that all places of a name have.

ghost use Rattle.std.specs.Prelude.{◌≡◌, ℕ, List, IfOk, OnOk, option_map};
ghost use Rattle.isle_tree.specs.Views.{program};
ghost use Rattle.isle_interpreter.specs.Agreed.{at_name, agreed, agreed_at, joined, noted, noted_place};
ghost use Rattle.isle_places.specs.Places.{all_named};
ghost use Rattle.isle_places.specs.ToldViews.{placed};

use isle_places::{Signatures, push_places};
use isle_tree::{Function, Operand};
use std::alloc::{AllocError, Global};
use std::collections::BTreeMap;

// The type if a place more has this one, if they agree.
fn joined<'s>(known: Option<Option<&'s str>>, ty: &'s str) -> Option<&'s str>
    ensures { option_map (λ t. t.now) result
        ≡ joined (option_map (option_map (λ t. t.now)) known.entry) ty.now }
{
    match known {
        None => Some(ty),
        Some(None) => None,
        Some(Some(other)) => { if other == ty { Some(other) } else { None } }
    }
}

// Notes a place of a name.
fn note<'s>(
    types: &mut BTreeMap<&'s str, Option<&'s str>>,
    name: &'s str,
    ty: &'s str,
) -> Result<(), AllocError>
    ensures { OnOk result
        ((other : List ℕ)
        → at_name types.new other ≡ noted other (at_name types.old other) (name.now, ty.now)) }
{
    let whole = joined(types.get(name).copied(), ty);
    types.insert(name, whole)?;
    Ok(())
}

// Notes a place, where a name stands there.
fn note_place<'s>(
    types: &mut BTreeMap<&'s str, Option<&'s str>>,
    operand: &'s Operand,
    ty: &'s str,
) -> Result<(), AllocError>
    ensures { OnOk result
        ((other : List ℕ)
        → at_name types.new other
        ≡ noted_place other (at_name types.old other) (operand.now, ty.now)) }
{
    match operand {
        Operand::Name(name) => note(types, name.as_str(), ty),
        Operand::Local(_)
        | Operand::Arg(_)
        | Operand::Bool(_)
        | Operand::Int(..)
        | Operand::Raw(_) => Ok(()),
    }
}

// The map of the names at places.
fn by_name<'s>(
    alloc: Global,
    places: &[(&'s Operand, &'s str)],
) -> Result<BTreeMap<&'s str, Option<&'s str>>, AllocError>
    ensures { IfOk result (λ found.
        (name : List ℕ) → at_name found name ≡ agreed_at name (placed places.now)) }
{
    let mut found = BTreeMap::new(alloc);
    for place in places {
        note_place(&mut found, place.0, place.1)?;
    }
    Ok(found)
}

/// Gathers for each name the type that all its places have, of all functions of the program. The only error is want of
/// memory.
pub fn agreed_types<'s>(
    alloc: Global,
    signatures: &'s Signatures<'_>,
    fns: &'s [Function],
) -> Result<BTreeMap<&'s str, Option<&'s str>>, AllocError>
    requires { fns.now ≡ signatures.now.fns }
    ensures { IfOk result (λ found.
        (name : List ℕ) → at_name found name ≡ agreed name (all_named (program signatures.now))) }
{
    let mut places = Vec::new(alloc);
    for f in fns {
        push_places(alloc, signatures, &mut places, f)?;
    }
    by_name(alloc, places.as_slice())
}
