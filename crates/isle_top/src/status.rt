//! The status that a run ends with, and the line that says why.

ghost use Rattle.std.specs.Prelude.{◌≡◌, ◌⊎◌, ◌≤◌, [], Some};
ghost use Rattle.isle_codegen.specs.Errors.{HavePlaces};
ghost use Rattle.isle_top.specs.Errors.{error_status, errors_status};
ghost use Rattle.isle_top.specs.Jobs.{job_asked};
ghost use Rattle.isle_top.specs.Lines.{Wrote, memory_line};
ghost use Rattle.isle_top.specs.Statuses.{IsOfJob, Tells, TellsErrors, TellsRun, Ends};

use crate::asked::Asked;
use crate::job::{asked_name, input_name, unit_name};
use crate::lines::{
    OUT_OF_MEMORY, write_argument, write_argument_count, write_bad_answers, write_bad_name,
    write_no_term, write_no_unit, write_unread, write_unsupported,
};
use crate::refusal::Refusal;
use isle_codegen::FileError;
use isle_core::{Error, Errors, Sink, write_all};
use isle_run::RunFail;
use std::alloc::Global;

/// The status of a run: 0 done, 2 the words are no line, 3 no unit has the name, 4 a row of tables is not supported,
/// 5 an input was not read, 6 to 9 errors are in the inputs (of parsing, of typing, of rules, of recursion), 10 a
/// name may not be emitted, 11 the output failed, 12 memory ran out, 13 a term is not run.
#[derive(Clone, Copy, Debug, PartialEq, Eq)]
pub struct Exit(pub u8);

// The status of an error, by its kind.
fn error_status(error: &Error) -> Exit
    ensures { result.0 ≡ error_status error.now }
{
    match error {
        Error::ParseError { .. } => Exit(6),
        Error::TypeError { .. } => Exit(7),
        Error::UnreachableError { .. } | Error::OverlapError { .. } | Error::ShadowedError { .. } =>
            Exit(8),
        Error::RecursionError { .. } => Exit(9),
    }
}

// The status of errors, which is that of the first. There is one.
fn errors_status(errors: &[Error]) -> Exit
    requires { errors.now ≡ [] → ⊥ }
    ensures { errors_status errors.now ≡ Some result.0 }
{
    match errors {
        [] => unreachable!(),
        [first, ..] => error_status(first),
    }
}

/// Writes a line, as far as the sink takes it.
pub fn complain<E: Sink>(err: &mut E, line: &str)
    ensures later { E.faults err.old ≤ E.faults err.new }
    ensures wrote { Wrote (E.taken err.old) (E.taken err.new) (E.faults err.old) (E.faults err.new)
        line.now }
{
    let _ = write_all(err, line.as_bytes());
}

// Writes that memory ran out, as far as the sink takes it, and returns that status.
fn tell_memory<E: Sink>(err: &mut E) -> Exit
    ensures later { E.faults err.old ≤ E.faults err.new }
    ensures told { let wrote = Wrote (E.taken err.old) (E.taken err.new)
        (E.faults err.old) (E.faults err.new) in
        Tells wrote result.0 12 memory_line }
{
    complain(err, OUT_OF_MEMORY);
    Exit(12)
}

// Writes the lines of errors, as far as the sink takes them, and returns their status; 12 if memory doesn't hold the
// lines.
fn tell_errors<E: Sink>(alloc: Global, err: &mut E, errors: &Errors) -> Exit
    requires placed { HavePlaces errors.now }
    requires some { errors.now.errors ≡ [] → ⊥ }
    ensures later { E.faults err.old ≤ E.faults err.new }
    ensures told { let wrote = Wrote (E.taken err.old) (E.taken err.new)
        (E.faults err.old) (E.faults err.new) in
        TellsErrors wrote result.0 errors.now ⊎ Tells wrote result.0 12 memory_line }
{
    match errors.shown_lines(alloc) {
        Ok(lines) => {
            let _ = write_all(err, lines.as_slice());
            errors_status(errors.errors.as_slice())
        }
        Err(_) => tell_memory(err),
    }
}

// Writes why a term is not run, as far as the sink takes it, and returns the status.
fn tell_run<E: Sink>(err: &mut E, line: &Asked<'_>, fail: &RunFail) -> Exit
    ensures later { E.faults err.old ≤ E.faults err.new }
    ensures told { let wrote = Wrote (E.taken err.old) (E.taken err.new)
        (E.faults err.old) (E.faults err.new) in
        TellsRun (job_asked line.now) wrote result.0 fail.now }
{
    match fail {
        RunFail::NoTerm => {
            let _ = write_no_term(err, asked_name(line.command));
            Exit(13)
        }
        RunFail::ArgCount => {
            let _ = write_argument_count(err);
            Exit(13)
        }
        RunFail::ArgType(argument) => {
            let _ = write_argument(err, *argument);
            Exit(13)
        }
        RunFail::BadAnswers(place) => {
            let _ = write_bad_answers(err, *place);
            Exit(13)
        }
        RunFail::Memory => tell_memory(err),
    }
}

/// Writes the lines of a refusal, as far as the sink takes them, and returns its status (`specs/Statuses.antt`). Only
/// the lines of errors take memory; if it doesn't hold them the status is 12.
pub fn refuse<E: Sink>(alloc: Global, err: &mut E, line: &Asked<'_>, refusal: &Refusal) -> Exit
    requires { IsOfJob (job_asked line.now) refusal.now }
    ensures later { E.faults err.old ≤ E.faults err.new }
    ensures ends { let wrote = Wrote (E.taken err.old) (E.taken err.new)
        (E.faults err.old) (E.faults err.new) in
        Ends (job_asked line.now) wrote result.0 refusal.now }
{
    match refusal {
        Refusal::NoUnit => {
            let _ = write_no_unit(err, unit_name(line.command));
            Exit(3)
        }
        Refusal::Tables(found) => {
            let _ = write_unsupported(err, found.row.as_str(), found.shape);
            Exit(4)
        }
        Refusal::Files(FileError::Io { index, cause }) => {
            let _ = write_unread(err, input_name(line.command, *index), *cause);
            Exit(5)
        }
        Refusal::Files(FileError::Errors(errors)) => tell_errors(alloc, err, errors),
        Refusal::Files(FileError::Name(error)) => {
            let _ = write_bad_name(err, error.name.as_str(), error.usage);
            Exit(10)
        }
        Refusal::Files(FileError::Memory) => tell_memory(err),
        Refusal::Run(fail) => tell_run(err, line, fail),
    }
}
