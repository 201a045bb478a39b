ghost use Rattle.std.specs.Prelude.{◌≡◌};

use std::alloc::{AllocError, AllocFailed};
use thiserror::Error;

/// No memory is left.
#[derive(Clone, Copy, Debug, PartialEq, Eq)]
pub struct OutOfMemory;

impl From<AllocError> for OutOfMemory {
    fn from(_: AllocError) -> Self {
        OutOfMemory
    }
}

impl<T: Drop> From<AllocFailed<T>> for OutOfMemory {
    fn from(_: AllocFailed<T>) -> Self {
        OutOfMemory
    }
}

/// A directory or a sink failed. Its count of faults rose in that call.
#[derive(Clone, Copy, Debug, PartialEq, Eq)]
pub struct Failed;

/// Why a folder was not listed, or a file not written.
#[derive(Clone, Copy, Debug, PartialEq, Eq, Error)]
pub enum DirFault {
    #[error("fault")]
    Failed,
    #[error("out of memory")]
    Memory,
}

impl From<AllocError> for DirFault {
    ghost use Rattle.isle_outside.specs.declared.errors.DirFault.TheVariants.{Memory};

    ghost from_gives = { λ _ e. e ≡ Memory };

    fn from(_: AllocError) -> Self {
        DirFault::Memory
    }
}

impl<T: Drop> From<AllocFailed<T>> for DirFault {
    ghost use Rattle.isle_outside.specs.declared.errors.DirFault.TheVariants.{Memory};

    ghost from_gives = { λ _ e. e ≡ Memory };

    fn from(_: AllocFailed<T>) -> Self {
        DirFault::Memory
    }
}

/// Why an input was not read. The first that is so counts, in the order absent, too long, not UTF-8.
#[derive(Clone, Copy, Debug, PartialEq, Eq)]
pub enum IoCause {
    /// The directory failed, and its count of faults rose.
    Fault,
    /// No file has the name. A folder is no file.
    Absent,
    /// The file has at most 2^24 bytes, and they are not UTF-8.
    NotUtf8,
    /// The file has more than 2^24 bytes.
    TooLong,
}

/// Why a file was not read, or that memory ran out.
#[derive(Clone, Copy, Debug, PartialEq, Eq)]
pub enum ReadFail {
    Io(IoCause),
    Memory,
}

impl From<AllocError> for ReadFail {
    ghost use Rattle.isle_outside.specs.declared.errors.ReadFail.TheVariants.{Memory};

    ghost from_gives = { λ _ e. e ≡ Memory };

    fn from(_: AllocError) -> Self {
        ReadFail::Memory
    }
}
