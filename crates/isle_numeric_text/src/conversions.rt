//! The definitions of conversions.

ghost use Rattle.std.specs.Prelude.{◌≡◌, ◌++◌, [], OnOk, IfOk, if◌then◌else◌, string_bytes};
ghost use Rattle.std.specs.List.{flat_map};
ghost use Rattle.isle_writing.specs.Text.{def_texts};
ghost use Rattle.isle_numerics.specs.declared.conversion.Conversion.{Conversion as Conv};
ghost use Rattle.isle_numerics.specs.declared.numeric_type.NumericType.{NumericType as Numeric};
ghost use Rattle.isle_numerics.specs.Definitions.{back_defs, conversion_defs, conversion_name};
ghost use Rattle.isle_numerics.specs.Definitions.{conversions_from, is_other, pair_defs};

use crate::definition::{
    prefixed, prefixed_twice, push_answered, push_constructed, push_converter, push_declared,
};
use crate::extractors::one_name;
use isle_core::OutOfMemory;
use isle_numerics::{Conversion, NumericType, conversions};
use std::alloc::{AllocError, Global};

/// Returns the name of a conversion's term.
pub fn conversion_name(
    alloc: Global,
    from: &str,
    to: &str,
    c: Conversion,
) -> Result<String, AllocError>
    ensures { IfOk result (λ name. string_bytes name ≡ conversion_name from.now to.now c) }
{
    match c {
        Conversion::Into => prefixed_twice(alloc, from, "into_", to),
        Conversion::TryInto => prefixed_twice(alloc, from, "try_into_", to),
        Conversion::UnwrapInto => prefixed_twice(alloc, from, "unwrap_into_", to),
        Conversion::TruncateInto => prefixed_twice(alloc, from, "truncate_into_", to),
        Conversion::CastSigned => prefixed(alloc, from, "cast_signed"),
        Conversion::CastUnsigned => prefixed(alloc, from, "cast_unsigned"),
    }
}

// Appends the definitions of a conversion between the types of these names.
#[tactic(auto, using(isle_writing::proofs::WrittenLaw::texts_joined))]
fn push_conversion(
    alloc: Global,
    text: &mut String,
    from: &str,
    to: &str,
    c: Conversion,
) -> Result<(), AllocError>
    ensures { OnOk result
        (string_bytes text.new
        ≡ string_bytes text.old ++ def_texts (conversion_defs from.now to.now c)) }
{
    let term = conversion_name(alloc, from, to, c)?;
    push_constructed(
        text,
        term.as_str(),
        c.is_trial(),
        one_name(alloc, from)?,
        to,
    )?;
    match c {
        Conversion::Into => push_converter(text, from, to, term.as_str()),
        Conversion::TryInto => Ok(()),
        Conversion::UnwrapInto => Ok(()),
        Conversion::TruncateInto => Ok(()),
        Conversion::CastSigned => Ok(()),
        Conversion::CastUnsigned => Ok(()),
    }
}

// Appends the extractor from the second type to the first.
fn push_back(alloc: Global, text: &mut String, from: &str, to: &str) -> Result<(), AllocError>
    ensures { OnOk result
        (string_bytes text.new ≡ string_bytes text.old ++ def_texts (back_defs from.now to.now)) }
{
    let term = prefixed_twice(alloc, to, "from_", from)?;
    let func = prefixed_twice(alloc, from, "from_", to)?;
    push_declared(text, term.as_str(), false, one_name(alloc, to)?, from)?;
    push_answered(text, term.as_str(), func.as_str())
}

// Appends the definitions of conversions between the types of these names.
fn push_all(
    alloc: Global,
    text: &mut String,
    from: &str,
    to: &str,
    all: &[Conversion],
) -> Result<(), AllocError>
    ensures { OnOk result
        (string_bytes text.new
        ≡ string_bytes text.old ++ flat_map (λ (c : Conv). def_texts (conversion_defs from.now to.now c)) all.now) }
{
    for c in all {
        push_conversion(alloc, text, from, to, *c)?;
    }
    Ok(())
}

/// Appends the definitions of a pair of types.
#[tactic(auto, using(crate::proofs::TextLaws::pair_texts))]
pub fn push_pair(
    alloc: Global,
    text: &mut String,
    from: NumericType,
    to: NumericType,
) -> Result<(), OutOfMemory>
    ensures { OnOk result
        (string_bytes text.new ≡ string_bytes text.old ++ def_texts (pair_defs from to)) }
{
    let all = conversions(alloc, from, to)?;
    push_all(alloc, text, from.name(), to.name(), all.as_slice())?;
    push_back(alloc, text, from.name(), to.name())?;
    Ok(())
}
