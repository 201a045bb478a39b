//! Names joined to folders.

ghost use Rattle.std.specs.Prelude.{◌≡◌, IfOk, string_bytes};
ghost use Rattle.isle_meta.specs.Layout.{joined_name};

use isle_meta::joined;
use std::alloc::{AllocError, Global};

/// Joins the name of a file to that of a folder; an empty folder leaves the name as it is. The only error is want of
/// memory.
pub fn joined_to(alloc: Global, folder: &str, name: &str) -> Result<String, AllocError>
    ensures { IfOk result (λ path. string_bytes path ≡ joined_name folder.now name.now) }
{
    if folder.is_empty() {
        String::from_str(alloc, name)
    } else {
        joined(alloc, folder, name)
    }
}
