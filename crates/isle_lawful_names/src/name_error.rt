//! Names that may not be emitted.

use isle_core::Text;

/// What a name stands for.
#[derive(Clone, Copy, Debug, PartialEq, Eq)]
pub enum NameUse {
    File,
    TypeName,
    Variant,
    Field,
    Function,
    Term,
    Constant,
}

/// A name that may not be emitted.
#[derive(Debug, Drop)]
pub struct NameError {
    pub name: Text,
    pub usage: NameUse,
}

/// Why names are refused.
#[derive(Debug, Drop)]
pub enum NameFail {
    /// The first that may not be emitted.
    Name(NameError),
    Memory,
}
