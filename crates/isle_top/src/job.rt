//! The inputs of a line, and the name that it asks for.

ghost use Rattle.std.specs.Prelude.{◌≡◌, ℕ, List, Some, slice_get};
ghost use Rattle.isle_meta.specs.declared.tables.Tables.{Tables};
ghost use Rattle.isle_command_line.specs.Views.{seen_command};
ghost use Rattle.isle_core.specs.declared.options.CodegenOptions.{CodegenOptions};
ghost use Rattle.isle_top.specs.Jobs.{job_of, job_of_run};
ghost use Rattle.isle_top.specs.Sourcing.{sourcing_of};
ghost use Rattle.isle_top.specs.Tabling.{handed};

use crate::source::source_input;
use isle_command_line::{Command, RunLine, Source};
use isle_units::tracked_names;

// The name of this number, of those of a source and that of a file of answers after them.
fn run_input(run: &RunLine, index: usize) -> &str
    ensures { (tables : Tables) (name : List ℕ)
        → slice_get (job_of_run tables run.now).inputs index ≡ Some name → result.now ≡ name }
{
    match (source_input(&run.source, index), &run.answers) {
        (Some(name), _) => name,
        (None, Some(name)) => name.as_str(),
        (None, None) => "",
    }
}

/// Returns the name of the line's input of this number, or any if there is none (`specs/Jobs.antt`).
pub fn input_name(request: &Command, index: usize) -> &str
    ensures { (tables : Tables) (name : List ℕ)
        → slice_get (job_of tables (seen_command request.now)).inputs index ≡ Some name
        → result.now ≡ name }
{
    match request {
        Command::Compile { names, .. } => match names.as_slice().get(index) {
            Some(name) => name.as_str(),
            None => "",
        },
        Command::Build { unit, .. } => match tracked_names(unit.as_str()).get(index) {
            Some(name) => name,
            None => "",
        },
        Command::Run(run) => run_input(run, index),
        Command::Help
        | Command::Version
        | Command::Prelude(_)
        | Command::Units
        | Command::Isa(_)
        | Command::Sample(_) => "",
    }
}

/// Returns the name that a line asks for beside its inputs: the term of a run; of other lines it is empty
/// (`specs/Jobs.antt`).
pub fn asked_name(request: &Command) -> &str
    ensures { (tables : Tables) → result.now ≡ (job_of tables (seen_command request.now)).asked }
{
    match request {
        Command::Run(run) => run.term.as_str(),
        Command::Help
        | Command::Version
        | Command::Compile { .. }
        | Command::Build { .. }
        | Command::Prelude(_)
        | Command::Units
        | Command::Isa(_)
        | Command::Sample(_) => "",
    }
}

// The unit that a source names, if it is one.
fn unit_of(source: &Source) -> &str
    ensures { (tables : Tables) (options : CodegenOptions)
        → result.now ≡ (sourcing_of (handed tables) options source.now).unit }
{
    match source {
        Source::File(_) => "",
        Source::Unit(unit) => unit.as_str(),
    }
}

/// Returns the name of the unit that a line asks for; of lines without one it is empty (`specs/Jobs.antt`).
pub fn unit_name(request: &Command) -> &str
    ensures { (tables : Tables) → result.now ≡ (job_of tables (seen_command request.now)).unit }
{
    match request {
        Command::Build { unit, .. } => unit.as_str(),
        Command::Run(run) => unit_of(&run.source),
        Command::Help
        | Command::Version
        | Command::Compile { .. }
        | Command::Prelude(_)
        | Command::Units
        | Command::Isa(_)
        | Command::Sample(_) => "",
    }
}
