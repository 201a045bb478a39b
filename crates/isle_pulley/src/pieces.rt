//! Pieces of both texts.

ghost use Rattle.std.specs.Prelude.{◌≡◌, ◌++◌, OnOk, string_bytes};
ghost use Rattle.isle_pulley.specs.Display.{listed, where_true};
ghost use Rattle.isle_pulley.specs.Places.{temporary, written};

use isle_printer::push_two;
use std::alloc::{AllocError, Global};

/// Appends a name and a comma. The only error is want of memory.
pub fn push_listed(text: &mut String, name: &str) -> Result<(), AllocError>
    ensures { OnOk result (string_bytes text.new ≡ string_bytes text.old ++ listed name.now) }
{
    push_two(text, name, ", ")
}

/// Appends a word, if it is to stand there. The only error is want of memory.
pub fn push_where(text: &mut String, stands: bool, word: &str) -> Result<(), AllocError>
    ensures { OnOk result
        (string_bytes text.new ≡ string_bytes text.old ++ where_true stands word.now) }
{
    if stands {
        text.push_str(word)?;
    }
    Ok(())
}

/// Appends the type of a place that is written. The only error is want of memory.
#[tactic(auto, unfolding(crate::specs::Places::written))]
pub fn push_written(text: &mut String, ty: &str) -> Result<(), AllocError>
    ensures { OnOk result (string_bytes text.new ≡ string_bytes text.old ++ written ty.now) }
{
    push_two(text, "Writable", ty)
}

/// Appends the term that makes such a place for a while. The only error is want of memory.
#[tactic(auto, unfolding(crate::specs::Places::temporary))]
pub fn push_temporary(alloc: Global, text: &mut String, ty: &str) -> Result<(), AllocError>
    ensures { OnOk result (string_bytes text.new ≡ string_bytes text.old ++ temporary ty.now) }
{
    let lower = ty.to_ascii_lowercase(alloc)?;
    push_two(text, "temp_writable_", lower.as_str())
}
