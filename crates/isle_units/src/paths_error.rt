//! Why inputs have no paths.

use isle_core::OutOfMemory;
use std::alloc::{AllocError, AllocFailed};
use thiserror::Error;

/// Why inputs have no paths.
#[derive(Clone, Copy, Debug, PartialEq, Eq, Error)]
pub enum PathsError {
    /// The first input that is neither a file nor a folder, by its place among the inputs.
    #[error("an input is absent")]
    Absent { index: usize },
    /// The directory failed, and its count of faults rose.
    #[error("fault")]
    Dir,
    #[error("out of memory")]
    Memory,
}

impl From<OutOfMemory> for PathsError {
    ghost use Rattle.std.specs.Prelude.{◌≡◌};
    ghost use Rattle.isle_units.specs.declared.paths_error.PathsError.TheVariants.{Memory};

    ghost from_gives = { λ _ e. e ≡ Memory };

    fn from(_: OutOfMemory) -> Self {
        PathsError::Memory
    }
}

impl From<AllocError> for PathsError {
    ghost use Rattle.std.specs.Prelude.{◌≡◌};
    ghost use Rattle.isle_units.specs.declared.paths_error.PathsError.TheVariants.{Memory};

    ghost from_gives = { λ _ e. e ≡ Memory };

    fn from(_: AllocError) -> Self {
        PathsError::Memory
    }
}

impl<T: Drop> From<AllocFailed<T>> for PathsError {
    ghost use Rattle.std.specs.Prelude.{◌≡◌};
    ghost use Rattle.isle_units.specs.declared.paths_error.PathsError.TheVariants.{Memory};

    ghost from_gives = { λ _ e. e ≡ Memory };

    fn from(_: AllocFailed<T>) -> Self {
        PathsError::Memory
    }
}
