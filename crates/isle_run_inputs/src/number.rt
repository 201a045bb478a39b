//! Written numbers at the integer types.

ghost use Rattle.std.specs.Prelude.{◌≡◌, ◌+◌, ◌^◌, if◌then◌else◌};
ghost use mir.Val.{hbits};
ghost use Rattle.isle_core.specs.Int.{width, is_signed};
ghost use Rattle.isle_lexer.specs.SignedViews.{signed};
ghost use Rattle.isle_run_inputs.specs.ValuesAt.{count_up, is_of};

use isle_core::IntType;
use isle_lexer::Signed;

// The highest number of a type.
fn highest(ty: IntType) -> u128
    ensures { result + 1 ≡ count_up ty }
{
    match ty {
        IntType::U8 => 0xff,
        IntType::U16 => 0xffff,
        IntType::U32 => 0xffff_ffff,
        IntType::U64 | IntType::USize => 0xffff_ffff_ffff_ffff,
        IntType::U128 => u128::MAX,
        IntType::I8 => 0x7f,
        IntType::I16 => 0x7fff,
        IntType::I32 => 0x7fff_ffff,
        IntType::I64 | IntType::ISize => 0x7fff_ffff_ffff_ffff,
        IntType::I128 => 0x7fff_ffff_ffff_ffff_ffff_ffff_ffff_ffff,
    }
}

// How far below 0 the lowest number of a type lies.
fn lowest(ty: IntType) -> u128
    ensures { result ≡ (if is_signed ty then 2 ^ hbits (width ty) else 0) }
{
    match ty {
        IntType::U8 | IntType::U16 | IntType::U32 | IntType::U64 | IntType::U128 | IntType::USize =>
            0,
        IntType::I8 => 0x80,
        IntType::I16 => 0x8000,
        IntType::I32 => 0x8000_0000,
        IntType::I64 | IntType::ISize => 0x8000_0000_0000_0000,
        IntType::I128 => 0x8000_0000_0000_0000_0000_0000_0000_0000,
    }
}

/// Tells whether a number is one of the type, before any wrapping.
pub fn is_of(ty: IntType, number: Signed) -> bool
    ensures { result ≡ is_of ty (signed number) }
{
    if number.negative {
        number.magnitude <= lowest(ty)
    } else {
        number.magnitude <= highest(ty)
    }
}
