//! The ten fixed-width integer types.

ghost use Rattle.std.specs.Prelude.{◌≡◌, IfOk};
ghost use Rattle.isle_core.specs.Int.{type_name};
ghost use Rattle.isle_numerics.specs.NumericTypes.{int_type, numeric_types};

use isle_core::{IntType, OutOfMemory};
use std::alloc::Global;

/// A fixed-width integer type: whether its numbers may lie below 0, and its bytes.
#[derive(Clone, Copy, PartialEq, Eq)]
pub struct NumericType {
    pub signed: bool,
    pub byte_width: u8,
}

/// The ten types, narrower ones first, and of one width the signed one first.
const TYPES: [NumericType; 10] = [
    NumericType {
        signed: true,
        byte_width: 1,
    },
    NumericType {
        signed: false,
        byte_width: 1,
    },
    NumericType {
        signed: true,
        byte_width: 2,
    },
    NumericType {
        signed: false,
        byte_width: 2,
    },
    NumericType {
        signed: true,
        byte_width: 4,
    },
    NumericType {
        signed: false,
        byte_width: 4,
    },
    NumericType {
        signed: true,
        byte_width: 8,
    },
    NumericType {
        signed: false,
        byte_width: 8,
    },
    NumericType {
        signed: true,
        byte_width: 16,
    },
    NumericType {
        signed: false,
        byte_width: 16,
    },
];

impl NumericType {
    /// Returns the ten types: `i8`, `u8`, `i16`, `u16` and so on to `u128`. The only error is want of memory.
    pub fn all(alloc: Global) -> Result<Vec<NumericType>, OutOfMemory>
        ensures { IfOk result (λ types. types.items ≡ numeric_types) }
    {
        let mut types = Vec::new(alloc);
        for ty in &TYPES {
            types.push(*ty)?;
        }
        Ok(types)
    }

    /// Returns the integer type of this sign and width.
    pub(crate) fn int_type(&self) -> IntType
        ensures { result ≡ int_type self.now }
    {
        if self.signed {
            match self.byte_width {
                1 => IntType::I8,
                2 => IntType::I16,
                4 => IntType::I32,
                8 => IntType::I64,
                _ => IntType::I128,
            }
        } else {
            match self.byte_width {
                1 => IntType::U8,
                2 => IntType::U16,
                4 => IntType::U32,
                8 => IntType::U64,
                _ => IntType::U128,
            }
        }
    }

    /// Returns the type's name, in rule texts and in Rust. A width that is none of 1, 2, 4 and 8 bytes counts as 16.
    pub fn name(&self) -> &'static str
        ensures { result.now ≡ type_name (int_type self.now) }
    {
        self.int_type().name()
    }
}
