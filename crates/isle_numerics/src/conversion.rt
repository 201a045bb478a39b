//! Conversions between two types.

ghost use Rattle.std.specs.Prelude.{◌≡◌, ◌≢◌, IfOk};
ghost use Rattle.isle_numerics.specs.NumericTypes.{IsNumeric};
ghost use Rattle.isle_numerics.specs.Conversions.{conversions, have_one_sign, is_lossless};
ghost use Rattle.isle_numerics.specs.Conversions.{IsConvertedAsNumbersAllow};
ghost use Rattle.isle_numerics.specs.Definitions.{is_other, is_trial};

use crate::numeric_type::NumericType;
use isle_core::OutOfMemory;
use std::alloc::Global;

/// How a number of one type is taken to another: never failing, giving nothing, stopping the program, dropping high
/// bits, or reading the bits with the other sign.
#[derive(Clone, Copy)]
pub enum Conversion {
    Into,
    TryInto,
    UnwrapInto,
    TruncateInto,
    CastSigned,
    CastUnsigned,
}

impl Conversion {
    /// Tells whether the conversion may give nothing.
    pub fn is_trial(self) -> bool
        ensures { result ≡ is_trial self }
    {
        match self {
            Conversion::TryInto => true,
            Conversion::Into | Conversion::UnwrapInto | Conversion::TruncateInto => false,
            Conversion::CastSigned | Conversion::CastUnsigned => false,
        }
    }
}

/// Tells whether two types differ in their sign or in their width.
pub fn is_other(one: NumericType, two: NumericType) -> bool
    ensures { result ≡ is_other one two }
{
    let have_one_sign = if one.signed { two.signed } else { !two.signed };
    !(have_one_sign && one.byte_width == two.byte_width)
}

/// Tells whether the second type is wider, and either the first is unsigned or the second is signed. Of two different
/// types this is so exactly if each number of the first is one of the second.
pub fn is_lossless(from: NumericType, to: NumericType) -> bool
    ensures rule { result ≡ is_lossless from to }
    ensures law { IsNumeric from → IsNumeric to → from ≢ to → IsConvertedAsNumbersAllow from to }
{
    from.byte_width < to.byte_width && (!from.signed || to.signed)
}

/// Returns the conversions from a type to another, in order. The only error is want of memory.
pub fn conversions(
    alloc: Global,
    from: NumericType,
    to: NumericType,
) -> Result<Vec<Conversion>, OutOfMemory>
    ensures { IfOk result (λ all. all.items ≡ conversions from to) }
{
    let mut all = Vec::new(alloc);
    if is_lossless(from, to) {
        all.push(Conversion::Into)?;
        return Ok(all);
    }
    all.push(Conversion::TryInto)?;
    all.push(Conversion::UnwrapInto)?;
    if from.signed == to.signed {
        all.push(Conversion::TruncateInto)?;
    }
    if from.byte_width == to.byte_width {
        if to.signed {
            all.push(Conversion::CastSigned)?;
        } else {
            all.push(Conversion::CastUnsigned)?;
        }
    }
    Ok(all)
}
