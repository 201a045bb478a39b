ghost use Rattle.std.specs.Prelude.{◌≡◌};
ghost use Rattle.isle_codegen.specs.Causes.{of_texts};

use crate::file_error::FileError;
use isle_core::{Error, Errors, Files, List};
use isle_lawful_names::NameError;

/// Why definitions give no text (`IsUncompiled` of `specs/Causes.antt` says when each comes).
#[derive(Debug, Drop)]
pub enum CompileError {
    /// What is wrong with them, in order. Its places lie in the files.
    Errors(List<Error>),
    /// The first name that may not be emitted, of the files, the types, the terms and the constants.
    Name(NameError),
    Memory,
}

impl CompileError {
    /// Gives why files give no text whose definitions give none for this. Errors take the files along.
    pub fn with_files(self, files: Files) -> FileError
        ensures { result ≡ of_texts files self }
    {
        match self {
            CompileError::Errors(errors) => FileError::Errors(Errors { errors, files }),
            CompileError::Name(name) => FileError::Name(name),
            CompileError::Memory => FileError::Memory,
        }
    }
}
