//! The source of a line: a file, or the files of a unit.

ghost use Rattle.std.specs.Prelude.{◌≡◌, ◌≤◌, ◌+◌, ◌-◌, ◌*◌, ◌^◌};
ghost use Rattle.std.specs.Prelude.{◌∷◌, [], length, IfOk, IfErr};
ghost use Rattle.std.specs.Prelude.{slice_get};
ghost use Rattle.std.specs.Option.{option_copied};
ghost use Rattle.isle_build.specs.UnitSource.{IsSourceOfUnit, tracked_of};
ghost use Rattle.isle_codegen.specs.Causes.{AllTried, AreSource};
ghost use Rattle.isle_core.specs.Inputs.{Fails, IsTried};
ghost use Rattle.isle_top.specs.Inputs.{FailsToHave};
ghost use Rattle.isle_top.specs.Job.{surroundings};
ghost use Rattle.isle_core.specs.declared.options.CodegenOptions.{CodegenOptions as Options};
ghost use Rattle.isle_meta.specs.declared.tables.Tables.{Tables};
ghost use Rattle.isle_top.specs.RunLine.{of_read};
ghost use Rattle.isle_top.specs.Sourcing.{from_names, from_unit, sourcing_of};
ghost use Rattle.isle_top.specs.Tabling.{handed};
ghost use Rattle.isle_top.specs.Wants.{IsEarly};

use crate::asked::Over;
use crate::built::of_build;
use crate::refusal::Refusal;
use isle_build::unit_files;
use isle_codegen::FileError;
use isle_command_line::Source;
use isle_core::{CodegenOptions, Dir, Files, ReadError};
use isle_units::tracked_names;
use std::alloc::Global;

/// Returns the refusal of a line for an input that isn't read.
pub fn of_read(fail: ReadError) -> Refusal
    ensures { result ≡ of_read fail }
{
    match fail {
        ReadError::Io { index, cause } => Refusal::Files(FileError::Io { index, cause }),
        ReadError::Memory => Refusal::Files(FileError::Memory),
    }
}

/// Returns the name of the file of this number that is read for a source, if there is one.
pub fn source_input(source: &Source, index: usize) -> Option<&str>
    ensures { (tables : Tables) (options : Options)
        → option_copied result ≡ slice_get (sourcing_of (handed tables) options source.now).inputs index }
{
    match source {
        Source::File(name) if index == 0 => Some(name.as_str()),
        Source::File(_) => None,
        Source::Unit(unit) => match tracked_names(unit.as_str()).get(index) {
            Some(name) => Some(name),
            None => None,
        },
    }
}

/// Returns how many files are read for a source.
pub fn inputs_count(source: &Source) -> usize
    ensures { (tables : Tables) (options : Options)
        → result ≡ length (sourcing_of (handed tables) options source.now).inputs }
{
    match source {
        Source::File(_) => 1,
        Source::Unit(unit) => tracked_names(unit.as_str()).len(),
    }
}

// The source of the file of this name.
fn source_at<D: Dir>(
    alloc: Global,
    name: &str,
    options: &CodegenOptions,
    dir: &mut D,
) -> Result<Files, ReadError>
    ensures read { IfOk result (λ files.
        AreSource options.now (name.now ∷ []) (D.files dir.old) files) }
    ensures count { IfOk result (λ files. length files.file_texts ≡ length files.file_names) }
    ensures err { IfErr result (λ e.
        Fails e (D.files dir.old) (name.now ∷ []) (D.counts dir.old) (D.counts dir.new)) }
    ensures files { D.files dir.new ≡ D.files dir.old }
    ensures later { (D.counts dir.old).faults ≤ (D.counts dir.new).faults }
    ensures stays { (D.counts dir.old).faults ≡ 2 ^ 64 - 1
        → (D.counts dir.new).faults ≡ 2 ^ 64 - 1 }
    ensures tried { IfOk result (λ files. IsTried 1 (D.counts dir.old) (D.counts dir.new)) }
    ensures steady { IfOk result (λ files. (D.counts dir.new).faults ≡ (D.counts dir.old).faults) }
    ensures given { (D.counts dir.new).given ≤ (D.counts dir.old).given + (2 ^ 24 + 1) }
{
    let names = vec![in alloc; String::from_str(alloc, name)?]?;
    match Files::from_paths(alloc, dir, names.as_slice(), options.prefixes.as_slice()) {
        Ok(files) => Ok(files),
        Err(e) => Err(e),
    }
}

// The source of the file of this name, or why it isn't had.
fn file_source<D: Dir>(
    alloc: Global,
    name: &str,
    options: &CodegenOptions,
    dir: &mut D,
) -> Result<Files, Refusal>
    ensures read { IfOk result (λ files.
        AreSource options.now (name.now ∷ []) (D.files dir.old) files) }
    ensures count { IfOk result (λ files. length files.file_texts ≡ length files.file_names) }
    ensures tried { IfOk result (λ files.
        AllTried (name.now ∷ []) (D.counts dir.old) (D.counts dir.new)) }
    ensures err { let around = surroundings (D.files dir.old) (D.counts dir.old) (D.counts dir.new)
        in
        IfErr result (FailsToHave (from_names options.now (name.now ∷ [])) around) }
    ensures unasked { IfErr result (λ e. IsEarly e → dir.new ≡ dir.old) }
    ensures files { D.files dir.new ≡ D.files dir.old }
    ensures later { (D.counts dir.old).faults ≤ (D.counts dir.new).faults }
    ensures stays { (D.counts dir.old).faults ≡ 2 ^ 64 - 1
        → (D.counts dir.new).faults ≡ 2 ^ 64 - 1 }
    ensures given { (D.counts dir.new).given ≤ (D.counts dir.old).given + (2 ^ 24 + 1) }
{
    match source_at(alloc, name, options, dir) {
        Ok(files) => Ok(files),
        Err(e) => Err(of_read(e)),
    }
}

// The files of the unit of this name, or why they aren't had.
fn unit_source<D: Dir>(
    alloc: Global,
    over: &Over<'_>,
    unit: &str,
    dir: &mut D,
) -> Result<Files, Refusal>
    ensures read { IfOk result (λ files.
        IsSourceOfUnit over.now.tables.now over.now.options.now unit.now (D.files dir.old) files) }
    ensures count { IfOk result (λ files. length files.file_texts ≡ length files.file_names) }
    ensures tried { IfOk result (λ files.
        AllTried (tracked_of unit.now) (D.counts dir.old) (D.counts dir.new)) }
    ensures err { let around = surroundings (D.files dir.old) (D.counts dir.old) (D.counts dir.new)
        in
        let from = from_unit (handed over.now.tables.now) over.now.options.now unit.now in
        IfErr result (FailsToHave from around) }
    ensures unasked { IfErr result (λ e. IsEarly e → dir.new ≡ dir.old) }
    ensures files { D.files dir.new ≡ D.files dir.old }
    ensures later { (D.counts dir.old).faults ≤ (D.counts dir.new).faults }
    ensures stays { (D.counts dir.old).faults ≡ 2 ^ 64 - 1
        → (D.counts dir.new).faults ≡ 2 ^ 64 - 1 }
    ensures given { (D.counts dir.new).given
        ≤ (D.counts dir.old).given + (2 ^ 24 + 1) * length (tracked_of unit.now) }
{
    match unit_files(alloc, dir, over.tables, unit, over.options) {
        Ok(files) => Ok(files),
        Err(fail) => Err(of_build(fail)),
    }
}

/// Reads the files of a source, with their names as printed under the options' prefixes, and puts those after them that
/// are generated for a unit (`specs/Sourcing.antt`).
pub fn source_of<D: Dir>(
    alloc: Global,
    over: &Over<'_>,
    source: &Source,
    dir: &mut D,
) -> Result<Files, Refusal>
    ensures read { let from = sourcing_of (handed over.now.tables.now) over.now.options.now source.now in
        IfOk result (from.is_source (D.files dir.old)) }
    ensures count { IfOk result (λ files. length files.file_texts ≡ length files.file_names) }
    ensures tried { let from = sourcing_of (handed over.now.tables.now) over.now.options.now source.now in
        IfOk result (λ files. AllTried from.inputs (D.counts dir.old) (D.counts dir.new)) }
    ensures err { let around = surroundings (D.files dir.old) (D.counts dir.old) (D.counts dir.new)
        in
        let from = sourcing_of (handed over.now.tables.now) over.now.options.now source.now in
        IfErr result (FailsToHave from around) }
    ensures unasked { IfErr result (λ e. IsEarly e → dir.new ≡ dir.old) }
    ensures files { D.files dir.new ≡ D.files dir.old }
    ensures later { (D.counts dir.old).faults ≤ (D.counts dir.new).faults }
    ensures stays { (D.counts dir.old).faults ≡ 2 ^ 64 - 1
        → (D.counts dir.new).faults ≡ 2 ^ 64 - 1 }
    ensures given { let from = sourcing_of (handed over.now.tables.now) over.now.options.now source.now in
        (D.counts dir.new).given
        ≤ (D.counts dir.old).given + (2 ^ 24 + 1) * length from.inputs }
{
    match source {
        Source::File(name) => file_source(alloc, name.as_str(), over.options, dir),
        Source::Unit(unit) => unit_source(alloc, over, unit.as_str(), dir),
    }
}
