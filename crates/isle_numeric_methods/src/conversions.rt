//! The methods of conversions.

ghost use Rattle.std.specs.Prelude.{◌≡◌, ◌++◌, OnOk, string_bytes};
ghost use Rattle.std.specs.List.{flat_map};
ghost use Rattle.isle_numerics.specs.Definitions.{conversion_name, is_other};
ghost use Rattle.isle_numeric_methods.specs.Methods.{back_body, back_method, conversion_body};
ghost use Rattle.isle_numeric_methods.specs.Methods.{conversion_method, head, methods_from};
ghost use Rattle.isle_numeric_methods.specs.Methods.{pair_methods};

use crate::method::{push_argument, push_closing, push_head, push_opening};
use isle_core::OutOfMemory;
use isle_numerics::{Conversion, NumericType, conversions, is_lossless, is_other};
use isle_printer::push_two;
use std::alloc::{AllocError, Global};

// Begins the method of a conversion.
fn push_conversion_head(
    text: &mut String,
    from: &str,
    to: &str,
    c: Conversion,
) -> Result<(), AllocError>
    ensures { OnOk result
        (string_bytes text.new
        ≡ string_bytes text.old ++ head (conversion_name from.now to.now c)) }
{
    match c {
        Conversion::Into => push_head(text, from, "into_", to),
        Conversion::TryInto => push_head(text, from, "try_into_", to),
        Conversion::UnwrapInto => push_head(text, from, "unwrap_into_", to),
        Conversion::TruncateInto => push_head(text, from, "truncate_into_", to),
        Conversion::CastSigned => push_head(text, from, "", "cast_signed"),
        Conversion::CastUnsigned => push_head(text, from, "", "cast_unsigned"),
    }
}

// Appends what a conversion does.
fn push_body(text: &mut String, to: &str, c: Conversion) -> Result<(), AllocError>
    ensures { OnOk result
        (string_bytes text.new ≡ string_bytes text.old ++ conversion_body to.now c) }
{
    match c {
        Conversion::Into => push_two(text, to, "::from(x)"),
        Conversion::TryInto => push_two(text, to, "::try_from(x).ok()"),
        Conversion::UnwrapInto => push_two(text, to, "::try_from(x).unwrap()"),
        Conversion::TruncateInto => push_two(text, "x as ", to),
        Conversion::CastSigned => push_two(text, "x as ", to),
        Conversion::CastUnsigned => push_two(text, "x as ", to),
    }
}

// Appends the method of a conversion.
fn push_conversion(text: &mut String, from: &str, to: &str, c: Conversion) -> Result<(), AllocError>
    ensures { OnOk result
        (string_bytes text.new
        ≡ string_bytes text.old ++ conversion_method from.now to.now c) }
{
    push_conversion_head(text, from, to, c)?;
    push_argument(text, "x", from)?;
    push_opening(text, c.is_trial(), to)?;
    push_body(text, to, c)?;
    push_closing(text)
}

// Appends the methods of conversions.
fn push_conversions(
    text: &mut String,
    from: &str,
    to: &str,
    all: &[Conversion],
) -> Result<(), AllocError>
    ensures { OnOk result
        (string_bytes text.new
        ≡ string_bytes text.old ++ flat_map (conversion_method from.now to.now) all.now) }
{
    for c in all {
        push_conversion(text, from, to, *c)?;
    }
    Ok(())
}

// What a pair's extractor does.
fn back_body(lossless: bool) -> &'static str
    ensures { result.now ≡ back_body lossless }
{
    if lossless {
        "Some(x.into())"
    } else {
        "x.try_into().ok()"
    }
}

// Appends the method of a pair's extractor.
fn push_back(text: &mut String, lossless: bool, from: &str, to: &str) -> Result<(), AllocError>
    ensures { OnOk result
        (string_bytes text.new
        ≡ string_bytes text.old ++ back_method lossless from.now to.now) }
{
    push_head(text, from, "from_", to)?;
    push_argument(text, "x", from)?;
    push_opening(text, true, to)?;
    text.push_str(back_body(lossless))?;
    push_closing(text)
}

// Appends the methods of a pair of types.
fn push_pair(
    alloc: Global,
    text: &mut String,
    from: NumericType,
    to: NumericType,
) -> Result<(), OutOfMemory>
    ensures { OnOk result
        (string_bytes text.new ≡ string_bytes text.old ++ pair_methods from to) }
{
    let all = conversions(alloc, from, to)?;
    push_conversions(text, from.name(), to.name(), all.as_slice())?;
    push_back(text, is_lossless(from, to), from.name(), to.name())?;
    Ok(())
}

/// Appends the methods of the pairs whose first type is this one.
pub fn push_from(
    alloc: Global,
    text: &mut String,
    from: NumericType,
    all: &[NumericType],
) -> Result<(), OutOfMemory>
    ensures { OnOk result
        (string_bytes text.new
        ≡ string_bytes text.old ++ methods_from all.now from) }
{
    for to in all {
        if is_other(from, *to) {
            push_pair(alloc, text, from, *to)?;
        }
    }
    Ok(())
}
