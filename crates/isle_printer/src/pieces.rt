//! Pieces of a text, one after another.

ghost use Rattle.std.specs.Prelude.{◌≡◌, ◌++◌, OnOk, string_bytes};

use std::alloc::AllocError;

/// Appends two words. The only error is want of memory.
pub fn push_two(text: &mut String, first: &str, second: &str) -> Result<(), AllocError>
    ensures { OnOk result
        (string_bytes text.new ≡ string_bytes text.old ++ (first.now ++ second.now)) }
{
    text.push_str(first)?;
    text.push_str(second)
}

/// Appends this, a name, and this. The only error is want of memory.
pub fn push_around(
    text: &mut String,
    before: &str,
    name: &str,
    after: &str,
) -> Result<(), AllocError>
    ensures { OnOk result
        (string_bytes text.new
        ≡ string_bytes text.old ++ (before.now ++ (name.now ++ after.now))) }
{
    text.push_str(before)?;
    text.push_str(name)?;
    text.push_str(after)
}
