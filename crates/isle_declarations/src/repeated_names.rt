//! Names that repeat.

ghost use Rattle.std.specs.Prelude.{◌≡◌, IfOk};
ghost use Rattle.isle_declarations.specs.Repeats.{repeats};

use crate::symbols::Symbols;
use isle_core::Name;
use std::alloc::{AllocError, Global};

/// Tells whether a name repeats an earlier one. The only error is want of memory.
pub fn repeats(alloc: Global, names: &[Name]) -> Result<bool, AllocError>
    ensures { IfOk result (λ found. found ≡ repeats names.now) }
{
    let mut before = Symbols::new(alloc);
    for name in names {
        if before.find(name.as_str()).is_some() {
            return Ok(true);
        }
        before.intern(name.as_str())?;
    }
    Ok(false)
}
