use std::alloc::{AllocError, AllocFailed};
use thiserror::Error;

/// Why the function of a term has no run.
#[derive(Clone, Copy, Debug, PartialEq, Eq, Error)]
pub enum RunError {
    #[error("no function has this term")]
    NoTerm,
    #[error("another number of arguments")]
    ArgCount,
    /// The number of the first argument that is no value of its parameter's type.
    #[error("an argument of another type")]
    ArgType(usize),
    /// The number of the first entry that is wrong, or that of all entries if one is missing.
    #[error("bad answers")]
    BadAnswers(usize),
    #[error("out of memory")]
    Memory,
}

impl From<AllocError> for RunError {
    ghost use Rattle.std.specs.Prelude.{◌≡◌};
    ghost use Rattle.isle_interpreter.specs.declared.run_error.RunError.TheVariants.{Memory};

    ghost from_gives = { λ _ e. e ≡ Memory };

    fn from(_: AllocError) -> Self {
        RunError::Memory
    }
}

impl<T: Drop> From<AllocFailed<T>> for RunError {
    ghost use Rattle.std.specs.Prelude.{◌≡◌};
    ghost use Rattle.isle_interpreter.specs.declared.run_error.RunError.TheVariants.{Memory};

    ghost from_gives = { λ _ e. e ≡ Memory };

    fn from(_: AllocFailed<T>) -> Self {
        RunError::Memory
    }
}
