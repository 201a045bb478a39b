//! The names, widths and numbers of the integer types.

ghost use Rattle.std.specs.Prelude.{◌≡◌, ◌↔◌, IsTrue};
ghost use mir.Val.{bits};
ghost use Rattle.isle_core.specs.Int.{is_signed, type_name, width};
ghost use Rattle.isle_core.specs.HasType.{IsReduced};

use crate::types::IntType;

impl IntType {
    /// Returns the type's name, in rule texts and in Rust.
    pub fn name(self) -> &'static str
        ensures { result.now ≡ type_name self }
    {
        match self {
            IntType::U8 => "u8",
            IntType::U16 => "u16",
            IntType::U32 => "u32",
            IntType::U64 => "u64",
            IntType::U128 => "u128",
            IntType::USize => "usize",
            IntType::I8 => "i8",
            IntType::I16 => "i16",
            IntType::I32 => "i32",
            IntType::I64 => "i64",
            IntType::I128 => "i128",
            IntType::ISize => "isize",
        }
    }

    /// Tells whether the type's numbers may lie below 0.
    pub fn is_signed(self) -> bool
        ensures { result ≡ is_signed self }
    {
        match self {
            IntType::U8
            | IntType::U16
            | IntType::U32
            | IntType::U64
            | IntType::U128
            | IntType::USize => false,
            IntType::I8
            | IntType::I16
            | IntType::I32
            | IntType::I64
            | IntType::I128
            | IntType::ISize => true,
        }
    }

    /// Returns how many bits the type has; `usize` and `isize` have 64.
    pub fn bits(self) -> u32
        ensures { result ≡ bits (width self) }
    {
        match self {
            IntType::U8 | IntType::I8 => 8,
            IntType::U16 | IntType::I16 => 16,
            IntType::U32 | IntType::I32 => 32,
            IntType::U64 | IntType::USize | IntType::I64 | IntType::ISize => 64,
            IntType::U128 | IntType::I128 => 128,
        }
    }

    /// Tells whether a number is one of the type, as a value holds it: `u128` as its 128 signed bits.
    pub fn holds(self, number: i128) -> bool
        ensures { IsTrue result ↔ IsReduced self number }
    {
        match self {
            IntType::U8 => (0..0x100).contains(&number),
            IntType::U16 => (0..0x1_0000).contains(&number),
            IntType::U32 => (0..0x1_0000_0000).contains(&number),
            IntType::U64 | IntType::USize => (0..0x1_0000_0000_0000_0000).contains(&number),
            IntType::I8 => (-0x80..0x80).contains(&number),
            IntType::I16 => (-0x8000..0x8000).contains(&number),
            IntType::I32 => (-0x8000_0000..0x8000_0000).contains(&number),
            IntType::I64 | IntType::ISize => {
                (-0x8000_0000_0000_0000..0x8000_0000_0000_0000).contains(&number)
            }
            IntType::U128 | IntType::I128 => true,
        }
    }
}
