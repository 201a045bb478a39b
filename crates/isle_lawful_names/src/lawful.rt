//! Which names types and constants may have.

ghost use Rattle.std.specs.Prelude.{◌↔◌, IsTrue};
ghost use Rattle.isle_lawful_names.specs.LawfulNames.{IsTypeName, IsConstantName};

use crate::words::{is_constant_word, is_type_word};
use isle_spelling::is_name;

/// Tells whether a type may have the name, if a term has rules or none has.
pub fn is_type_name(name: &str, has_rules: bool) -> bool
    ensures { IsTrue result ↔ IsTypeName has_rules name.now }
{
    if !is_name(name) {
        return false;
    }
    if is_type_word(name) {
        return false;
    }
    !(has_rules && name == "C")
}

/// Tells whether a constant may have the name.
pub fn is_constant_name(name: &str) -> bool
    ensures { IsTrue result ↔ IsConstantName name.now }
{
    if !is_name(name) {
        return false;
    }
    !is_constant_word(name)
}
