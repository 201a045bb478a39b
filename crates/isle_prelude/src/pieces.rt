//! Pieces of texts.

ghost use Rattle.std.specs.Prelude.{◌≡◌, ◌++◌, OnOk, string_bytes};
ghost use Rattle.isle_prelude.specs.TypePieces.{numbered};

use isle_printer::push_numeral;
use std::alloc::AllocError;

/// Appends these bytes and a number behind them. The only error is want of memory.
#[tactic(auto, unfolding(crate::specs::TypePieces::numbered))]
pub fn push_numbered(text: &mut String, head: &str, n: usize) -> Result<(), AllocError>
    ensures { OnOk result
        (string_bytes text.new ≡ string_bytes text.old ++ numbered head.now n) }
{
    text.push_str(head)?;
    push_numeral(text, n as u128, 10)
}

/// Appends a word, these bytes and a number behind them. The only error is want of memory.
pub fn push_then_numbered(
    text: &mut String,
    word: &str,
    head: &str,
    n: usize,
) -> Result<(), AllocError>
    ensures { OnOk result
        (string_bytes text.new
        ≡ string_bytes text.old ++ (word.now ++ numbered head.now n)) }
{
    text.push_str(word)?;
    push_numbered(text, head, n)
}
