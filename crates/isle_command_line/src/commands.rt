use isle_core::{CodegenOptions, List, Text};
use isle_settings::Isa;
use isle_values::Written;
use std::alloc::{AllocError, AllocFailed};

/// What texts are written as a prelude.
#[derive(Clone, Copy, Debug, PartialEq, Eq)]
pub enum Kind {
    Numerics,
    NumericsRust,
    ClifOpt,
    ClifLower,
    Assembler,
    AssemblerRust,
    Pulley,
    PulleyRust,
}

/// Whose terms are run.
#[derive(Debug, Drop)]
pub enum Source {
    /// A file's, of this name.
    File(Text),
    /// A unit's, of this name.
    Unit(Text),
}

/// A run of a term at values.
#[derive(Debug, Drop)]
pub struct RunLine {
    /// Whether all calls of the run are told.
    pub trace: bool,
    pub options: CodegenOptions,
    pub source: Source,
    pub term: Text,
    pub values: List<Written>,
    /// The file that says what calls answer, if there is one.
    pub answers: Option<Text>,
}

/// What a line of words asks for.
#[derive(Debug, Drop)]
pub enum Command {
    Help,
    Version,
    /// Compile the inputs of these names, in order.
    Compile {
        options: CodegenOptions,
        names: List<Text>,
    },
    /// Build a unit.
    Build {
        options: CodegenOptions,
        unit: Text,
    },
    /// Write a prelude.
    Prelude(Kind),
    /// List the units.
    Units,
    /// Write what a target has.
    Isa(Isa),
    /// Count what a sample of this size becomes.
    Sample(usize),
    /// Run a term.
    Run(RunLine),
}

/// Why words are no line.
#[derive(Clone, Copy, Debug, PartialEq, Eq)]
pub enum LineFail {
    /// The number of the first word with which no line continues, counted from 0.
    Bad(usize),
    /// A line would go on after the words.
    Missing,
    Memory,
}

impl From<AllocError> for LineFail {
    ghost use Rattle.std.specs.Prelude.{◌≡◌};
    ghost use Rattle.isle_command_line.specs.declared.commands.LineFail.TheVariants.{Memory};

    ghost from_gives = { λ _ e. e ≡ Memory };

    fn from(_: AllocError) -> Self {
        LineFail::Memory
    }
}

impl<T: Drop> From<AllocFailed<T>> for LineFail {
    ghost use Rattle.std.specs.Prelude.{◌≡◌};
    ghost use Rattle.isle_command_line.specs.declared.commands.LineFail.TheVariants.{Memory};

    ghost from_gives = { λ _ e. e ≡ Memory };

    fn from(_: AllocFailed<T>) -> Self {
        LineFail::Memory
    }
}
