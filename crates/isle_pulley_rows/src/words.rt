//! Texts that stand in others.

ghost use Rattle.std.specs.Prelude.{◌≡◌, ◌<◌, length, codes};
ghost use Rattle.isle_pulley_rows.specs.Words.{begins_with, holds, is_register};

/// Tells whether the text begins with the word.
pub fn begins_with(word: &str, text: &str) -> bool
    ensures { result ≡ begins_with word.now text.now }
{
    text.starts_with(word)
}

// Whether the word stands in the text.
fn holds(word: &str, text: &str) -> bool
    requires { 0 < length word.now }
    ensures { result ≡ holds word.now text.now }
{
    text.contains(word)
}

/// Tells whether the type is a register's.
pub fn is_register(ty: &str) -> bool
    ensures { result ≡ is_register ty.now }
{
    holds("Reg", ty)
}

/// Tells whether an operation of the name may trap.
pub fn names_trap(name: &str) -> bool
    ensures { result ≡ holds (codes "Trap") name.now }
{
    holds("Trap", name)
}
