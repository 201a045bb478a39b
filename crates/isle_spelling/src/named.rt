//! The names that stand for values, and those of fields.

ghost use Rattle.std.specs.Prelude.{◌≡◌, ◌↔◌, IsTrue, codes};
ghost use Rattle.std.specs.List.{list_all};
ghost use Rattle.isle_spelling.specs.Names.{is_digit, are_digits, is_decimal, is_numbered, IsName, IsFieldName};

use crate::identifier::is_identifier;

// A digit.
fn is_digit(byte: u8) -> bool
    ensures { result ≡ is_digit byte }
{
    byte.is_ascii_digit()
}

// Whether no byte is another one.
fn all_digits(bytes: &[u8]) -> bool
    ensures { result ≡ list_all is_digit bytes.now }
{
    for byte in bytes {
        if !is_digit(*byte) {
            return false;
        }
    }
    true
}

// Whether digits alone are there, and at least one.
fn are_digits(bytes: &[u8]) -> bool
    ensures { result ≡ are_digits bytes.now }
{
    match bytes {
        [] => false,
        [_, ..] => all_digits(bytes),
    }
}

// Whether it is a decimal number without a zero before it.
fn is_decimal(bytes: &[u8]) -> bool
    ensures { result ≡ is_decimal bytes.now }
{
    match bytes {
        [] => false,
        [byte] => is_digit(*byte),
        [first, _, ..] => *first != b'0' && all_digits(bytes),
    }
}

// Whether it names a local.
fn is_local(bytes: &[u8]) -> bool
    ensures { result ≡ is_numbered (codes "v") bytes.now }
{
    match bytes {
        [] => false,
        [first, rest @ ..] => *first == b'v' && are_digits(rest),
    }
}

// Whether it names a parameter.
fn is_argument(bytes: &[u8]) -> bool
    ensures { result ≡ is_numbered (codes "arg") bytes.now }
{
    match bytes {
        [] | [_] | [_, _] => false,
        [first, second, third, rest @ ..] => {
            *first == b'a' && *second == b'r' && *third == b'g' && are_digits(rest)
        }
    }
}

/// Tells whether a constant or a unit struct may have the name.
pub fn is_name(name: &str) -> bool
    ensures { IsTrue result ↔ IsName name.now }
{
    if !is_identifier(name) {
        return false;
    }
    if is_local(name.as_bytes()) {
        return false;
    }
    !is_argument(name.as_bytes())
}

/// Tells whether a field may have the name.
pub fn is_field_name(name: &str) -> bool
    ensures { IsTrue result ↔ IsFieldName name.now }
{
    if is_decimal(name.as_bytes()) {
        return true;
    }
    is_identifier(name)
}
