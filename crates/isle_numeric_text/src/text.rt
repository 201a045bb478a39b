//! The rule text of the numeric prelude.

ghost use Rattle.std.specs.Prelude.{◌≡◌, ◌++◌, OnOk, IfOk, string_bytes};
ghost use Rattle.std.specs.List.{flat_map, filter};
ghost use Rattle.isle_writing.specs.Spelt.{SpellsOnly};
ghost use Rattle.isle_writing.specs.Text.{def_texts};
ghost use Rattle.isle_numerics.specs.declared.numeric_type.NumericType.{NumericType as Numeric};
ghost use Rattle.isle_numerics.specs.Definitions.{is_other, numeric_defs, pair_defs, type_defs};
ghost use Rattle.isle_numeric_text.specs.Among.{defs_among, pairs_among};

use crate::conversions::push_pair;
use crate::operations::push_type;
use isle_core::OutOfMemory;
use isle_numerics::{NumericType, is_other};
use std::alloc::Global;

// Appends the definitions of the types' operations.
fn push_types(alloc: Global, text: &mut String, types: &[NumericType]) -> Result<(), OutOfMemory>
    ensures { OnOk result
        (string_bytes text.new
        ≡ string_bytes text.old ++ flat_map (λ (ty : Numeric). def_texts (type_defs ty)) types.now) }
{
    for ty in types {
        push_type(alloc, text, *ty)?;
    }
    Ok(())
}

// Appends the definitions of the pairs whose first type is this one.
fn push_others(
    alloc: Global,
    text: &mut String,
    from: NumericType,
    types: &[NumericType],
) -> Result<(), OutOfMemory>
    ensures { OnOk result
        (string_bytes text.new
        ≡ string_bytes text.old
        ++ flat_map (λ (to : Numeric). def_texts (pair_defs from to)) (filter (is_other from) types.now)) }
{
    for to in types {
        if is_other(from, *to) {
            push_pair(alloc, text, from, *to)?;
        }
    }
    Ok(())
}

// Appends the definitions of the pairs whose first type is this one.
fn push_pairs_from(
    alloc: Global,
    text: &mut String,
    from: NumericType,
    types: &[NumericType],
) -> Result<(), OutOfMemory>
    ensures { OnOk result
        (string_bytes text.new ≡ string_bytes text.old ++ def_texts (pairs_among types.now from)) }
{
    push_others(alloc, text, from, types)?;
    Ok(())
}

// Appends the definitions of pairs, first type by first type.
fn push_pairs(
    alloc: Global,
    text: &mut String,
    firsts: &[NumericType],
    types: &[NumericType],
) -> Result<(), OutOfMemory>
    ensures { OnOk result
        (string_bytes text.new
        ≡ string_bytes text.old
        ++ flat_map (λ (from : Numeric). def_texts (pairs_among types.now from)) firsts.now) }
{
    for from in firsts {
        push_pairs_from(alloc, text, *from, types)?;
    }
    Ok(())
}

// The text of the definitions among these types.
fn text_among(alloc: Global, types: &[NumericType]) -> Result<String, OutOfMemory>
    ensures { IfOk result (λ text. string_bytes text ≡ def_texts (defs_among types.now)) }
{
    let mut text = String::new(alloc);
    push_types(alloc, &mut text, types)?;
    push_pairs(alloc, &mut text, types, types)?;
    Ok(text)
}

/// Returns the rule text of the numeric prelude, which spells its definitions and no others. The only error is want of
/// memory.
#[tactic(auto, using(crate::proofs::TextLaws::numeric_among, crate::proofs::SpeltLaws::numeric_spelt))]
pub fn numerics_isle(alloc: Global) -> Result<String, OutOfMemory>
    ensures text { IfOk result (λ text. string_bytes text ≡ def_texts numeric_defs) }
    ensures spelt { IfOk result (λ text. SpellsOnly (string_bytes text) numeric_defs) }
{
    let types = NumericType::all(alloc)?;
    text_among(alloc, types.as_slice())
}
