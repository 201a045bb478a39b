//! The names of files.

ghost use Rattle.std.specs.Prelude.{◌≡◌, [], ◌∷◌};
ghost use Rattle.isle_core.specs.Rule.{Environment};
ghost use Rattle.isle_lawful_names.specs.Claims.{OfFile, file_claims};
ghost use Rattle.isle_lawful_names.specs.Judges.{Judges};
ghost use Rattle.isle_lawful_names.specs.Words.{is_name_byte, is_file_name};

use crate::name_error::NameUse;
use crate::single::unless_lawful;
use isle_core::Text;

// Whether a file's name may have the byte.
fn is_name_byte(byte: u8) -> bool
    ensures { result ≡ is_name_byte byte }
{
    byte >= 32 && byte != 127
}

// Whether a file's name may stand in a comment or a string.
fn is_file_name(name: &str) -> bool
    ensures { result ≡ is_file_name name.now }
{
    name.as_bytes().iter().all(|byte| is_name_byte(*byte))
}

// The name of a file, unless it may stand there.
fn file_found<'a>(name: &'a str) -> Option<(NameUse, &'a str)>
    ensures { (env : Environment) → Judges env (OfFile name.now ∷ []) result }
{
    unless_lawful(is_file_name(name), NameUse::File, name)
}

/// Gives the first name of a file that may not be emitted.
pub fn unlawful_file(names: &[Text]) -> Option<(NameUse, &str)>
    ensures { (env : Environment) → Judges env (file_claims names.now) result }
{
    for name in names {
        let found = file_found(name.as_str());
        if found.is_some() {
            return found;
        }
    }
    None
}
