//! Comments for the reader of a target text.

ghost use Rattle.std.specs.Prelude.{◌≡◌, ◌++◌, ◌∷◌, [], OnOk, string_bytes};
ghost use Rattle.isle_printer.specs.Comment.{comment_lines};

use std::alloc::AllocError;

/// Appends a comment line. A text that holds a line feed is commented out only up to it.
pub fn push_comment(out: &mut String, text: &str) -> Result<(), AllocError>
    ensures { OnOk result
        (string_bytes out.new ≡ string_bytes out.old ++ comment_lines (text.now ∷ [])) }
{
    out.push_str("//")?;
    out.push_str(text)?;
    out.push_str("\n")?;
    Ok(())
}
