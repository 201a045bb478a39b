//! The files of a unit.

ghost use Rattle.std.specs.Prelude.{◌≡◌, ◌≢◌, ◌+◌, ◌-◌, ◌*◌, ◌^◌, ◌≤◌, length};
ghost use Rattle.std.specs.Prelude.{Err, IfOk, IfErr};
ghost use Rattle.isle_build.specs.Built.{FailsToRead, HasNoFiles};
ghost use Rattle.isle_build.specs.Parts.{AreUnitFiles};
ghost use Rattle.isle_build.specs.UnitSource.{IsSourceOfUnit, IsUnitSource, tracked_of};
ghost use Rattle.isle_build.specs.declared.build_error.BuildError.TheVariants as build;
ghost use Rattle.isle_codegen.specs.Causes.{AllTried};
ghost use Rattle.isle_core.specs.Inputs.{Fails};
ghost use Rattle.isle_meta.specs.declared.errors.Unsupported.{Unsupported};

use crate::build_error::BuildError;
use crate::reading::{read_inputs, split_inputs, with_generated};
use isle_core::{CodegenOptions, Dir, Files, ReadError};
use isle_meta::{TableFail, Tables};
use isle_table_check::check_tables;
use isle_units::{IsleCompilation, get_isle_compilations};
use std::alloc::Global;

// The files of a unit, whether the rows of the tables are supported or not.
fn input_files<D: Dir>(
    alloc: Global,
    dir: &mut D,
    tables: &Tables,
    unit: &IsleCompilation,
    options: &CodegenOptions,
) -> Result<Files, ReadError>
    ensures ok { IfOk result (λ source.
        AreUnitFiles tables.now options.now unit.now (D.files dir.old) source) }
    ensures err { IfErr result (λ e.
        Fails e (D.files dir.old) unit.now.tracked_inputs (D.counts dir.old)
        (D.counts dir.new)) }
    ensures files { D.files dir.new ≡ D.files dir.old }
    ensures later { (D.counts dir.old).faults ≤ (D.counts dir.new).faults }
    ensures stays { (D.counts dir.old).faults ≡ 2 ^ 64 - 1
        → (D.counts dir.new).faults ≡ 2 ^ 64 - 1 }
    ensures tried { IfOk result (λ source.
        AllTried unit.now.tracked_inputs (D.counts dir.old) (D.counts dir.new)) }
    ensures given { (D.counts dir.new).given
        ≤ (D.counts dir.old).given + (2 ^ 24 + 1) * length unit.now.tracked_inputs }
{
    let names = match unit.inputs(alloc) {
        Ok(names) => names,
        Err(_) => return Err(ReadError::Memory),
    };
    let prefixes = options.prefixes.as_slice();
    let (tracked, generated) = split_inputs(names.as_slice(), unit);
    match read_inputs(alloc, dir, tracked, prefixes) {
        Ok(files) => match with_generated(alloc, tables, files, generated, prefixes) {
            Ok(all) => Ok(all),
            Err(_) => Err(ReadError::Memory),
        },
        Err(fail) => Err(fail),
    }
}

// The files of a unit, if each row of the tables is supported.
fn listed_files<D: Dir>(
    alloc: Global,
    dir: &mut D,
    tables: &Tables,
    unit: &IsleCompilation,
    options: &CodegenOptions,
) -> Result<Files, BuildError>
    ensures ok { IfOk result (λ source.
        IsUnitSource tables.now options.now unit.now (D.files dir.old) source) }
    ensures err { IfErr result (λ e.
        HasNoFiles tables.now (D.files dir.old) (D.counts dir.old) (D.counts dir.new) unit.now e) }
    ensures listed { result ≢ Err build.NoUnit }
    ensures unasked { (found : Unsupported) → result ≡ Err (build.Unsupported found)
        → dir.new ≡ dir.old }
    ensures files { D.files dir.new ≡ D.files dir.old }
    ensures later { (D.counts dir.old).faults ≤ (D.counts dir.new).faults }
    ensures stays { (D.counts dir.old).faults ≡ 2 ^ 64 - 1
        → (D.counts dir.new).faults ≡ 2 ^ 64 - 1 }
    ensures tried { IfOk result (λ source.
        AllTried unit.now.tracked_inputs (D.counts dir.old) (D.counts dir.new)) }
    ensures given { (D.counts dir.new).given
        ≤ (D.counts dir.old).given + (2 ^ 24 + 1) * length unit.now.tracked_inputs }
{
    match check_tables(alloc, tables) {
        Ok(()) => match input_files(alloc, dir, tables, unit, options) {
            Ok(files) => Ok(files),
            Err(ReadError::Io { index, cause }) => Err(BuildError::Io { index, cause }),
            Err(ReadError::Memory) => Err(BuildError::Memory),
        },
        Err(TableFail::Unsupported(found)) => Err(BuildError::Unsupported(found)),
        Err(TableFail::Memory) => Err(BuildError::Memory),
    }
}

/// Returns the files of the unit of this name, with their names as printed: the tracked ones are read, in order, and
/// the generated ones are made from the tables and stand after them (`specs/UnitSource.antt`). The only errors are
/// `NoUnit`, `Unsupported`, `Io` and `Memory`, in this order; the first two come before any call of the directory.
pub fn unit_files<D: Dir>(
    alloc: Global,
    dir: &mut D,
    tables: &Tables,
    unit: &str,
    options: &CodegenOptions,
) -> Result<Files, BuildError>
    ensures ok { IfOk result (λ source.
        IsSourceOfUnit tables.now options.now unit.now (D.files dir.old) source) }
    ensures count { IfOk result (λ source. length source.file_texts ≡ length source.file_names) }
    ensures err { IfErr result (λ e.
        FailsToRead tables.now unit.now (D.files dir.old) (D.counts dir.old) (D.counts dir.new)
        e) }
    ensures unlisted { result ≡ Err build.NoUnit → dir.new ≡ dir.old }
    ensures unasked { (found : Unsupported) → result ≡ Err (build.Unsupported found)
        → dir.new ≡ dir.old }
    ensures files { D.files dir.new ≡ D.files dir.old }
    ensures later { (D.counts dir.old).faults ≤ (D.counts dir.new).faults }
    ensures stays { (D.counts dir.old).faults ≡ 2 ^ 64 - 1
        → (D.counts dir.new).faults ≡ 2 ^ 64 - 1 }
    ensures tried { IfOk result (λ source.
        AllTried (tracked_of unit.now) (D.counts dir.old) (D.counts dir.new)) }
    ensures given { (D.counts dir.new).given
        ≤ (D.counts dir.old).given + (2 ^ 24 + 1) * length (tracked_of unit.now) }
{
    let units = match get_isle_compilations(alloc, "", "gen") {
        Ok(units) => units,
        Err(_) => return Err(BuildError::Memory),
    };
    match units.lookup(unit) {
        Some(listed) => listed_files(alloc, dir, tables, listed, options),
        None => Err(BuildError::NoUnit),
    }
}
