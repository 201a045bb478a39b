//! Words, and the names of the integer types.

ghost use Rattle.std.specs.Prelude.{◌≡◌, find};
ghost use Rattle.std.specs.List.{list_all};
ghost use Rattle.isle_printer.specs.Token.{is_word_byte};
ghost use Rattle.isle_printer.specs.Bytes.{same_bytes};
ghost use Rattle.isle_core.specs.Int.{type_name};
ghost use Rattle.isle_spelling.specs.Literal.{type_named};

use isle_core::IntType;

// A letter, a digit or _.
fn is_word_byte(byte: u8) -> bool
    ensures { result ≡ is_word_byte byte }
{
    byte.is_ascii_alphanumeric() || byte == b'_'
}

/// Tells whether all bytes may stand in a word.
pub fn are_word_bytes(bytes: &[u8]) -> bool
    ensures { result ≡ list_all is_word_byte bytes.now }
{
    for byte in bytes {
        if !is_word_byte(*byte) {
            return false;
        }
    }
    true
}

/// Tells whether two names are one.
#[tactic(auto, using(isle_printer::proofs::Bytes::same_is))]
pub fn is_same(a: &str, b: &str) -> bool
    ensures { result ≡ same_bytes a.now b.now }
{
    a == b
}

/// The integer types, in order.
const INT_TYPES: [IntType; 12] = [
    IntType::U8,
    IntType::U16,
    IntType::U32,
    IntType::U64,
    IntType::U128,
    IntType::USize,
    IntType::I8,
    IntType::I16,
    IntType::I32,
    IntType::I64,
    IntType::I128,
    IntType::ISize,
];

// The first of the types that has the name.
fn first_named(name: &str, types: &[IntType]) -> Option<IntType>
    ensures { result ≡ find (λ (ty : IntType). same_bytes (type_name ty) name.now) types.now }
{
    for ty in types {
        if is_same(ty.name(), name) {
            return Some(*ty);
        }
    }
    None
}

/// Returns the integer type of the name.
pub fn int_type_named(name: &str) -> Option<IntType>
    ensures { result ≡ type_named name.now }
{
    first_named(name, &INT_TYPES)
}
