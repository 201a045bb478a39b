use isle_codegen::FileError;
use isle_core::OutOfMemory;
use isle_meta::Unsupported;
use isle_run::RunFail;
use std::alloc::{AllocError, AllocFailed};

/// Why a line of words is not answered.
#[derive(Debug, Drop)]
pub enum Refusal {
    /// No unit has the name.
    NoUnit,
    /// The row of tables that isn't supported.
    Tables(Unsupported),
    /// What is wrong with the files that it reads; or want of memory.
    Files(FileError),
    /// The term that it asks for is not run.
    Run(RunFail),
}

impl From<AllocError> for Refusal {
    ghost use Rattle.std.specs.Prelude.{◌≡◌};
    ghost use Rattle.isle_codegen.specs.declared.file_error.FileError.TheVariants.{Memory};
    ghost use Rattle.isle_top.specs.declared.refusal.Refusal.TheVariants.{Files};

    ghost from_gives = { λ _ e. e ≡ Files Memory };

    fn from(_: AllocError) -> Self {
        Refusal::Files(FileError::Memory)
    }
}

impl From<OutOfMemory> for Refusal {
    ghost use Rattle.std.specs.Prelude.{◌≡◌};
    ghost use Rattle.isle_codegen.specs.declared.file_error.FileError.TheVariants.{Memory};
    ghost use Rattle.isle_top.specs.declared.refusal.Refusal.TheVariants.{Files};

    ghost from_gives = { λ _ e. e ≡ Files Memory };

    fn from(_: OutOfMemory) -> Self {
        Refusal::Files(FileError::Memory)
    }
}

impl<T: Drop> From<AllocFailed<T>> for Refusal {
    ghost use Rattle.std.specs.Prelude.{◌≡◌};
    ghost use Rattle.isle_codegen.specs.declared.file_error.FileError.TheVariants.{Memory};
    ghost use Rattle.isle_top.specs.declared.refusal.Refusal.TheVariants.{Files};

    ghost from_gives = { λ _ e. e ≡ Files Memory };

    fn from(_: AllocFailed<T>) -> Self {
        Refusal::Files(FileError::Memory)
    }
}
