use isle_core::OutOfMemory;
use std::alloc::{AllocError, AllocFailed};

/// Why a compiled term is not run.
#[derive(Clone, Copy, Debug, PartialEq, Eq)]
pub enum RunFail {
    /// No term with rules has the name.
    NoTerm,
    /// Another number of arguments.
    ArgCount,
    /// The number of the first argument that is of another type.
    ArgType(usize),
    /// The place in the file of answers where it goes wrong.
    BadAnswers(usize),
    Memory,
}

impl From<AllocError> for RunFail {
    ghost use Rattle.std.specs.Prelude.{◌≡◌};
    ghost use Rattle.isle_run.specs.declared.run_fail.RunFail.TheVariants.{Memory};

    ghost from_gives = { λ _ e. e ≡ Memory };

    fn from(_: AllocError) -> Self {
        RunFail::Memory
    }
}

impl From<OutOfMemory> for RunFail {
    ghost use Rattle.std.specs.Prelude.{◌≡◌};
    ghost use Rattle.isle_run.specs.declared.run_fail.RunFail.TheVariants.{Memory};

    ghost from_gives = { λ _ e. e ≡ Memory };

    fn from(_: OutOfMemory) -> Self {
        RunFail::Memory
    }
}

impl<T: Drop> From<AllocFailed<T>> for RunFail {
    ghost use Rattle.std.specs.Prelude.{◌≡◌};
    ghost use Rattle.isle_run.specs.declared.run_fail.RunFail.TheVariants.{Memory};

    ghost from_gives = { λ _ e. e ≡ Memory };

    fn from(_: AllocFailed<T>) -> Self {
        RunFail::Memory
    }
}
