//! Names that are numbers.

ghost use Rattle.std.specs.Prelude.{◌≡◌, ◌^◌, ◌<◌, ℕ, IfOk, Some};
ghost use Rattle.std.specs.Fmt.{decimal};
ghost use Rattle.isle_printer.specs.Bytes.{same_bytes};

use isle_core::numbered;
use isle_spelling::is_same;
use std::alloc::{AllocError, Global};

/// Tells whether a name is this number. The only error is want of memory.
pub fn is_numbered(alloc: Global, name: &str, index: usize) -> Result<bool, AllocError>
    ensures { IfOk result (λ is. is ≡ same_bytes name.now (decimal index)) }
{
    let text = numbered(alloc, index)?;
    Ok(is_same(name, text.as_str()))
}

/// Returns the only number that a name may be.
pub fn number_of(name: &str) -> Option<usize>
    ensures { (index : ℕ) → index < 2 ^ 64 → name.now ≡ decimal index → result ≡ Some index }
{
    name.parse::<usize>().ok()
}
