//! The text of the program of a unit.

ghost use Rattle.std.specs.Prelude.{◌≡◌, ◌≤◌, IfOk, IfErr, ◌+◌, ◌*◌, ◌^◌, length, ◌-◌};
ghost use Rattle.std.specs.String.{string_bytes};
ghost use Rattle.isle_build.specs.Built.{IsBuilt};
ghost use Rattle.isle_build.specs.UnitSource.{tracked_of};
ghost use Rattle.isle_codegen.specs.Causes.{AllTried};
ghost use Rattle.isle_top.specs.Built.{of_build};
ghost use Rattle.isle_top.specs.CompileLine.{FailsToCompile};
ghost use Rattle.isle_top.specs.Job.{surroundings};
ghost use Rattle.isle_top.specs.Sourcing.{from_unit};
ghost use Rattle.isle_top.specs.Tabling.{handed};
ghost use Rattle.isle_top.specs.Wants.{IsEarly};

use crate::asked::Over;
use crate::refusal::Refusal;
use isle_build::{BuildError, build_unit};
use isle_codegen::FileError;
use isle_core::Dir;
use std::alloc::Global;

/// Returns why a line has no text whose unit isn't built.
pub fn of_build(fail: BuildError) -> Refusal
    ensures { result ≡ of_build fail }
{
    match fail {
        BuildError::NoUnit => Refusal::NoUnit,
        BuildError::Unsupported(found) => Refusal::Tables(found),
        BuildError::Io { index, cause } => Refusal::Files(FileError::Io { index, cause }),
        BuildError::Errors(errors) => Refusal::Files(FileError::Errors(errors)),
        BuildError::Name(error) => Refusal::Files(FileError::Name(error)),
        BuildError::Memory => Refusal::Files(FileError::Memory),
    }
}

/// Builds the unit of this name over the tables, and returns the text of its program (`specs/CompileLine.antt`).
pub fn built<D: Dir>(
    alloc: Global,
    over: &Over<'_>,
    unit: &str,
    dir: &mut D,
) -> Result<String, Refusal>
    ensures ok { IfOk result (λ text. IsBuilt over.now.tables.now over.now.options.now unit.now
        (D.files dir.old) (string_bytes text)) }
    ensures tried { IfOk result (λ text.
        AllTried (tracked_of unit.now) (D.counts dir.old) (D.counts dir.new)) }
    ensures err { let around = surroundings (D.files dir.old) (D.counts dir.old) (D.counts dir.new)
        in
        let from = from_unit (handed over.now.tables.now) over.now.options.now unit.now in
        IfErr result (FailsToCompile from around) }
    ensures unasked { IfErr result (λ e. IsEarly e → dir.new ≡ dir.old) }
    ensures files { D.files dir.new ≡ D.files dir.old }
    ensures later { (D.counts dir.old).faults ≤ (D.counts dir.new).faults }
    ensures stays { (D.counts dir.old).faults ≡ 2 ^ 64 - 1
        → (D.counts dir.new).faults ≡ 2 ^ 64 - 1 }
    ensures given { (D.counts dir.new).given
        ≤ (D.counts dir.old).given + (2 ^ 24 + 1) * length (tracked_of unit.now) }
{
    match build_unit(alloc, dir, over.tables, unit, over.options) {
        Ok(text) => Ok(text),
        Err(fail) => Err(of_build(fail)),
    }
}
