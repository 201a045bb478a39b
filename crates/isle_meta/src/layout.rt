//! Lines of a text.

ghost use Rattle.std.specs.Prelude.{◌≡◌, ◌++◌, ◌∷◌, [], OnOk, OnErr, IfOk, string_bytes};
ghost use Rattle.isle_meta.specs.Layout.{indentation, line_text, joined_name};

use std::alloc::{AllocError, Global};

// Makes a buffer hold the blanks of so many levels.
fn indent(line: &mut String, level: usize) -> Result<(), AllocError>
    ensures { OnOk result (string_bytes line.new ≡ indentation level) }
{
    line.clear();
    for _ in 0..level {
        line.push_str("    ")?;
    }
    Ok(())
}

/// Appends a line of two parts, after the blanks of its level; it is put together in a buffer. The only error is want
/// of memory, and it leaves the text as it was.
pub fn push_line(
    out: &mut String,
    line: &mut String,
    level: usize,
    first: &str,
    second: &str,
) -> Result<(), AllocError>
    ensures ok { OnOk result
        (string_bytes out.new
        ≡ string_bytes out.old ++ line_text level (first.now ++ second.now)) }
    ensures err { OnErr result (string_bytes out.new ≡ string_bytes out.old) }
{
    indent(line, level)?;
    line.push_str(first)?;
    line.push_str(second)?;
    line.push_str("\n")?;
    out.push_str(line.as_str())
}

/// Joins the name of a file to that of the folder, which isn't empty. The only error is want of memory.
pub fn joined(alloc: Global, folder: &str, name: &str) -> Result<String, AllocError>
    ensures { IfOk result (λ path. string_bytes path ≡ folder.now ++ (47 ∷ name.now)) }
{
    let mut path = String::from_str(alloc, folder)?;
    path.push_str("/")?;
    path.push_str(name)?;
    Ok(path)
}
