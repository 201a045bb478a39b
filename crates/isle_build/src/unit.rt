//! A unit that is built.

ghost use Rattle.std.specs.Prelude.{◌≡◌, ◌+◌, ◌-◌, ◌*◌, ◌^◌, ◌≤◌, length, Err, IfOk, IfErr};
ghost use Rattle.std.specs.String.{string_bytes};
ghost use Rattle.isle_build.specs.Built.{FailsToBuild, IsBuilt};
ghost use Rattle.isle_build.specs.UnitSource.{tracked_of};
ghost use Rattle.isle_build.specs.declared.build_error.BuildError.TheVariants as build;
ghost use Rattle.isle_codegen.specs.Causes.{AllTried};
ghost use Rattle.isle_meta.specs.declared.errors.Unsupported.{Unsupported};

use crate::build_error::BuildError;
use crate::files::unit_files;
use isle_codegen::compile_texts;
use isle_core::{CodegenOptions, Dir};
use isle_meta::Tables;
use std::alloc::Global;

/// Compiles the files of the unit of this name (`unit_files`), and returns the text of the program that their
/// definitions give. `Errors` comes exactly if all were read and something is wrong with them, and reports it; `Name`
/// if nothing else is wrong, and reports the first name that may not be emitted (`specs/Built.antt`). It writes
/// nothing.
pub fn build_unit<D: Dir>(
    alloc: Global,
    dir: &mut D,
    tables: &Tables,
    unit: &str,
    options: &CodegenOptions,
) -> Result<String, BuildError>
    ensures ok { IfOk result (λ text.
        IsBuilt tables.now options.now unit.now (D.files dir.old) (string_bytes text)) }
    ensures err { IfErr result (λ e.
        FailsToBuild tables.now options.now unit.now (D.files dir.old) (D.counts dir.old)
        (D.counts dir.new) e) }
    ensures unlisted { result ≡ Err build.NoUnit → dir.new ≡ dir.old }
    ensures unasked { (found : Unsupported) → result ≡ Err (build.Unsupported found)
        → dir.new ≡ dir.old }
    ensures files { D.files dir.new ≡ D.files dir.old }
    ensures later { (D.counts dir.old).faults ≤ (D.counts dir.new).faults }
    ensures stays { (D.counts dir.old).faults ≡ 2 ^ 64 - 1
        → (D.counts dir.new).faults ≡ 2 ^ 64 - 1 }
    ensures tried { IfOk result (λ text.
        AllTried (tracked_of unit.now) (D.counts dir.old) (D.counts dir.new)) }
    ensures given { (D.counts dir.new).given
        ≤ (D.counts dir.old).given + (2 ^ 24 + 1) * length (tracked_of unit.now) }
{
    let files = match unit_files(alloc, dir, tables, unit, options) {
        Ok(files) => files,
        Err(fail) => return Err(fail),
    };
    match compile_texts(alloc, &files, options) {
        Ok(text) => Ok(text),
        Err(fail) => Err(BuildError::of_texts(fail, files)),
    }
}
