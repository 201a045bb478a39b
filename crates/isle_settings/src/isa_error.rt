//! The target of an architecture, and what is said where there is none.

ghost use Rattle.isle_settings.specs.Isas.{FindsIsa, IsUnknown};

use crate::isa::Isa;
use isle_core::Text;
use std::alloc::Global;
use std::error::Error;
use std::fmt;

/// Why an architecture has no target.
#[derive(Debug, Drop)]
pub enum IsaError {
    /// No target stands for the architecture of this word.
    Unknown(Text),
    Memory,
}

impl fmt::Display for IsaError {
    ghost use Rattle.std.specs.Prelude.{Some};
    ghost use Rattle.isle_settings.specs.Isas.{isa_error_text};

    ghost output = { λ error. Some (isa_error_text error) };

    fn fmt<W: fmt::Write>(&self, f: &mut fmt::Formatter<W>) -> fmt::Result {
        match self {
            IsaError::Unknown(arch) => {
                write!(f, "no supported isa found for arch `")?;
                f.write_str(arch.as_str())?;
                write!(f, "`")
            }
            IsaError::Memory => write!(f, "out of memory"),
        }
    }
}

impl Error for IsaError {}

/// Returns the target that stands for the architecture of this word. `Unknown` has the word, just where
/// `Isa::from_arch` gives none; only there may memory run out.
pub fn isa_from_arch(alloc: Global, arch: &str) -> Result<Isa, IsaError>
    ensures { FindsIsa arch.now result }
{
    match Isa::from_arch(arch) {
        Some(isa) => Ok(isa),
        None => Err(unknown(alloc, arch)),
    }
}

// That no target stands for the architecture of this word, or that memory ran out.
fn unknown(alloc: Global, arch: &str) -> IsaError
    ensures { IsUnknown arch.now result }
{
    match Text::copied(alloc, arch) {
        Ok(word) => IsaError::Unknown(word),
        Err(_) => IsaError::Memory,
    }
}
