//! Numbers of primitive types, as they are spelled.

ghost use Rattle.std.specs.Prelude.{◌≡◌, ◌++◌, [], ◌∷◌, OnOk};
ghost use Rattle.isle_printer.specs.Token.{Word};
ghost use Rattle.isle_spelling.specs.Raw.{raw_word};

use isle_printer::Printer;
use std::alloc::AllocError;

/// Prints the 128 bits of a number. What is printed after an error is left open.
pub fn print_raw(out: &mut Printer, val: i128) -> Result<(), AllocError>
    ensures { OnOk result (out.new ≡ out.old ++ Word (raw_word val) ∷ []) }
{
    out.hexadecimal(val.cast_unsigned())
}
