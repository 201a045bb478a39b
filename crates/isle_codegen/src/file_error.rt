use isle_core::{Errors, IoCause};
use isle_lawful_names::NameError;

/// Why files give no text.
#[derive(Debug, Drop)]
pub enum FileError {
    /// The first input that was not read, by its place among the inputs.
    Io { index: usize, cause: IoCause },
    /// What is wrong with the definitions of the inputs, in order, with the inputs.
    Errors(Errors),
    /// The first name that may not be emitted, of the inputs as printed, the types, the terms and the constants.
    Name(NameError),
    Memory,
}
