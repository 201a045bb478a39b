use std::alloc::{AllocError, AllocFailed};

/// Why a text gives no tables.
#[derive(Clone, Copy, Debug, PartialEq, Eq)]
pub enum TablesFail {
    /// The start of a comment that never ends; or else the place of the first token with which no tables begin, or the
    /// length of the text if a token is missing; or else the start of the first FORMAT that names no format.
    At(usize),
    Memory,
}

impl From<AllocError> for TablesFail {
    ghost use Rattle.std.specs.Prelude.{◌≡◌};
    ghost use Rattle.isle_tables.specs.declared.fail.TablesFail.TheVariants.{Memory};

    ghost from_gives = { λ _ e. e ≡ Memory };

    fn from(_: AllocError) -> Self {
        TablesFail::Memory
    }
}

impl<T: Drop> From<AllocFailed<T>> for TablesFail {
    ghost use Rattle.std.specs.Prelude.{◌≡◌};
    ghost use Rattle.isle_tables.specs.declared.fail.TablesFail.TheVariants.{Memory};

    ghost from_gives = { λ _ e. e ≡ Memory };

    fn from(_: AllocFailed<T>) -> Self {
        TablesFail::Memory
    }
}
