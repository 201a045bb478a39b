//! What a search for the first row that isn't supported comes to.

ghost use Rattle.isle_meta.specs.Checked.{Answers, Refuses};
ghost use Rattle.isle_meta.specs.Told.{found_row};

use crate::errors::{TableFail, Unsupported};
use crate::shapes::Shape;
use isle_core::Text;
use std::alloc::Global;

// The refusal of a row, or want of memory.
fn refused(alloc: Global, row: &str, shape: Shape) -> TableFail
    ensures { Refuses row.now shape result }
{
    match Text::copied(alloc, row) {
        Ok(row) => TableFail::Unsupported(Unsupported { row, shape }),
        Err(_) => TableFail::Memory,
    }
}

/// Answers what a search for the first row that isn't supported found: `Unsupported` has the row's name and the first
/// shape that it breaks, `Memory` says that memory ran out.
pub fn checked(alloc: Global, found: Option<(&str, Shape)>) -> Result<(), TableFail>
    ensures { Answers (found_row found.entry) result }
{
    match found {
        Some((row, shape)) => Err(refused(alloc, row, shape)),
        None => Ok(()),
    }
}
