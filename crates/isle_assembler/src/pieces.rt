//! Pieces of a text.

ghost use Rattle.std.specs.Prelude.{◌≡◌, ◌++◌, OnOk, string_bytes};
ghost use Rattle.isle_assembler.specs.Pieces.{joined};

use std::alloc::AllocError;

/// Appends pieces, one after another. The only error is want of memory.
pub fn push_pieces(text: &mut String, pieces: &[&str]) -> Result<(), AllocError>
    ensures { OnOk result (string_bytes text.new ≡ string_bytes text.old ++ joined pieces.now) }
{
    for piece in pieces {
        text.push_str(piece)?;
    }
    Ok(())
}
