//! The types that are there before any definition, by their names.

ghost use Rattle.std.specs.Prelude.{◌≡◌};
ghost use Rattle.isle_types.specs.Builtins.{builtin_named};

use isle_core::TypeId;

/// Returns the type of a name.
pub fn type_named(name: &str) -> Option<TypeId>
    ensures { result ≡ builtin_named name.now }
{
    let number = match name {
        "bool" => 0,
        "u8" => 1,
        "u16" => 2,
        "u32" => 3,
        "u64" => 4,
        "u128" => 5,
        "usize" => 6,
        "i8" => 7,
        "i16" => 8,
        "i32" => 9,
        "i64" => 10,
        "i128" => 11,
        "isize" => 12,
        _ => return None,
    };
    Some(TypeId(number))
}
