//! Why tables are refused, or a text isn't generated.

ghost use Rattle.std.specs.Prelude.{◌≡◌};

use crate::shapes::Shape;
use isle_core::Text;
use std::alloc::{AllocError, AllocFailed};

/// A row that isn't supported: its name, and what of it isn't.
#[derive(Debug, Drop)]
pub struct Unsupported {
    pub row: Text,
    pub shape: Shape,
}

/// Tables have a row that isn't supported, or memory ran out.
#[derive(Debug, Drop)]
pub enum TableFail {
    Unsupported(Unsupported),
    Memory,
}

impl From<AllocError> for TableFail {
    ghost use Rattle.isle_meta.specs.declared.errors.TableFail.TheVariants.{Memory};

    ghost from_gives = { λ _ e. e ≡ Memory };

    fn from(_: AllocError) -> Self {
        TableFail::Memory
    }
}

impl<T: Drop> From<AllocFailed<T>> for TableFail {
    ghost use Rattle.isle_meta.specs.declared.errors.TableFail.TheVariants.{Memory};

    ghost from_gives = { λ _ e. e ≡ Memory };

    fn from(_: AllocFailed<T>) -> Self {
        TableFail::Memory
    }
}

/// Why generated files aren't all written: a row isn't supported, the directory failed, or memory ran out. The last two
/// have the number of files that were written before.
#[derive(Debug, Drop)]
pub enum GenError {
    Unsupported(Unsupported),
    Dir { written: usize },
    Memory { written: usize },
}
