//! Why a unit isn't built.

ghost use Rattle.std.specs.Prelude.{◌≡◌};
ghost use Rattle.isle_build.specs.Parts.{of_texts};

use isle_codegen::CompileError;
use isle_core::{Errors, Files, IoCause};
use isle_lawful_names::NameError;
use isle_meta::Unsupported;

/// Why a unit isn't built (`FailsToBuild` in `specs/Built.antt` says when each comes).
#[derive(Debug, Drop)]
pub enum BuildError {
    /// No unit has the name.
    NoUnit,
    /// The first row of the tables that isn't supported, with the first shape that it breaks.
    Unsupported(Unsupported),
    /// The first tracked input that was not read, by its place among the inputs.
    Io { index: usize, cause: IoCause },
    /// What is wrong with the definitions of the inputs, in order, with the inputs.
    Errors(Errors),
    /// The first name that may not be emitted, of the inputs as printed, the types, the terms and the constants.
    Name(NameError),
    Memory,
}

impl BuildError {
    // Why a unit isn't built whose files give no text for this. Errors take the files along.
    pub(crate) fn of_texts(fail: CompileError, files: Files) -> BuildError
        ensures { result ≡ of_texts files fail }
    {
        match fail {
            CompileError::Errors(errors) => BuildError::Errors(Errors { errors, files }),
            CompileError::Name(name) => BuildError::Name(name),
            CompileError::Memory => BuildError::Memory,
        }
    }
}
