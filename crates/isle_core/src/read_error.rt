use isle_outside::{IoCause, OutOfMemory, ReadFail};
use std::alloc::{AllocError, AllocFailed};
use thiserror::Error;

/// Why inputs were not read.
#[derive(Clone, Copy, Debug, PartialEq, Eq, Error)]
pub enum ReadError {
    /// The first input that was not read, by its place among the names.
    #[error("an input was not read")]
    Io { index: usize, cause: IoCause },
    #[error("out of memory")]
    Memory,
}

impl ReadError {
    ghost use Rattle.std.specs.Prelude.{◌≡◌};
    ghost use Rattle.isle_core.specs.Inputs.{failure_at};

    /// Returns the failure of the input at the place.
    pub(crate) fn at(index: usize, fail: ReadFail) -> ReadError
        ensures { result ≡ failure_at index fail }
    {
        match fail {
            ReadFail::Io(cause) => ReadError::Io { index, cause },
            ReadFail::Memory => ReadError::Memory,
        }
    }
}

impl From<OutOfMemory> for ReadError {
    ghost use Rattle.isle_core.specs.declared.read_error.ReadError.TheVariants.{Memory};
    ghost use Rattle.std.specs.Prelude.{◌≡◌};

    ghost from_gives = { λ _ e. e ≡ Memory };

    fn from(_: OutOfMemory) -> Self {
        ReadError::Memory
    }
}

impl From<AllocError> for ReadError {
    ghost use Rattle.isle_core.specs.declared.read_error.ReadError.TheVariants.{Memory};
    ghost use Rattle.std.specs.Prelude.{◌≡◌};

    ghost from_gives = { λ _ e. e ≡ Memory };

    fn from(_: AllocError) -> Self {
        ReadError::Memory
    }
}

impl<T: Drop> From<AllocFailed<T>> for ReadError {
    ghost use Rattle.isle_core.specs.declared.read_error.ReadError.TheVariants.{Memory};
    ghost use Rattle.std.specs.Prelude.{◌≡◌};

    ghost from_gives = { λ _ e. e ≡ Memory };

    fn from(_: AllocFailed<T>) -> Self {
        ReadError::Memory
    }
}
