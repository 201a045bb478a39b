//! The string literal of a text.

ghost use Rattle.std.specs.Prelude.{◌≡◌, ◌++◌, OnOk, string_bytes, encode_utf8};
ghost use Rattle.std.specs.List.{list_all};
ghost use Rattle.isle_printer.specs.Quote.{is_plain, escaped, quoted};

use std::alloc::AllocError;

// Whether a byte stands between quotes as it is.
fn is_plain(byte: u8) -> bool
    ensures { result ≡ is_plain byte }
{
    !(byte == b'"' || byte == b'\\')
}

// Whether each byte of a text does.
fn are_plain(text: &str) -> bool
    ensures { result ≡ list_all is_plain text.now }
{
    text.as_bytes().iter().all(|byte| is_plain(*byte))
}

// Appends one character, with a backslash if it needs one.
fn push_escaped(out: &mut String, c: char) -> Result<(), AllocError>
    ensures { OnOk result (string_bytes out.new ≡ string_bytes out.old ++ escaped (encode_utf8 c)) }
{
    match c {
        '"' => out.push_str("\\\"")?,
        '\\' => out.push_str("\\\\")?,
        _ => out.push(c)?,
    }
    Ok(())
}

// Appends a text character by character.
fn push_each(out: &mut String, text: &str) -> Result<(), AllocError>
    ensures { OnOk result (string_bytes out.new ≡ string_bytes out.old ++ escaped text.now) }
{
    for c in text.chars() {
        push_escaped(out, c)?;
    }
    Ok(())
}

// Appends a text, as a whole if no byte needs a backslash.
#[tactic(auto, using(crate::proofs::Quotes::escaped_is_plain))]
fn push_text(out: &mut String, text: &str) -> Result<(), AllocError>
    ensures { OnOk result (string_bytes out.new ≡ string_bytes out.old ++ escaped text.now) }
{
    if are_plain(text) {
        return out.push_str(text);
    }
    push_each(out, text)
}

/// Puts the string literal of a text in the place of what `out` holds.
pub fn quote(out: &mut String, text: &str) -> Result<(), AllocError>
    ensures { OnOk result (string_bytes out.new ≡ quoted text.now) }
{
    out.clear();
    out.push_str("\"")?;
    push_text(out, text)?;
    out.push_str("\"")
}
