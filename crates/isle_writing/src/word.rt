//! Words of rule texts.

ghost use Rattle.std.specs.Prelude.{◌≡◌, ◌++◌, OnOk, codes, string_bytes};
ghost use Rattle.isle_writing.specs.Text.{truth_text, number_text, mark_text, spaced};

use isle_core::Name;
use isle_printer::push_numeral;
use std::alloc::AllocError;

/// Appends a number in decimal. The only error is want of memory.
pub fn push_number(text: &mut String, number: i128) -> Result<(), AllocError>
    ensures { OnOk result (string_bytes text.new ≡ string_bytes text.old ++ number_text number) }
{
    if number < 0 {
        text.push_str("-")?;
    }
    push_numeral(text, number.unsigned_abs(), 10)
}

/// Appends a truth. The only error is want of memory.
pub fn push_truth(text: &mut String, truth: bool) -> Result<(), AllocError>
    ensures { OnOk result (string_bytes text.new ≡ string_bytes text.old ++ truth_text truth) }
{
    text.push_str(if truth { "true" } else { "false" })
}

/// Appends a name after these bytes. The only error is want of memory.
pub fn push_after(text: &mut String, before: &str, name: &Name) -> Result<(), AllocError>
    ensures { OnOk result
        (string_bytes text.new ≡ string_bytes text.old ++ (before.now ++ name.now)) }
{
    text.push_str(before)?;
    text.push_str(name.as_str())
}

/// Appends a name after these bytes, and a closing parenthesis. The only error is want of memory.
pub fn push_last(text: &mut String, before: &str, name: &Name) -> Result<(), AllocError>
    ensures { OnOk result
        (string_bytes text.new
        ≡ string_bytes text.old ++ (before.now ++ (name.now ++ codes ")"))) }
{
    push_after(text, before, name)?;
    text.push_str(")")
}

/// Appends a word and a blank, if it is to stand there. The only error is want of memory.
pub fn push_mark(text: &mut String, stands: bool, word: &str) -> Result<(), AllocError>
    ensures { OnOk result
        (string_bytes text.new ≡ string_bytes text.old ++ mark_text stands word.now) }
{
    if !stands {
        return Ok(());
    }
    text.push_str(word)?;
    text.push_str(" ")
}

/// Appends names with blanks between them, and this in front of the first. The only error is want of memory.
pub fn push_spaced(text: &mut String, gap: &str, names: &[Name]) -> Result<(), AllocError>
    ensures { OnOk result
        (string_bytes text.new ≡ string_bytes text.old ++ spaced gap.now names.now) }
{
    let mut before = gap;
    for name in names {
        push_after(text, before, name)?;
        before = " ";
    }
    Ok(())
}
