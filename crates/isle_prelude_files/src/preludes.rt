//! The files of preludes, made from tables and written.

ghost use Rattle.std.specs.Prelude.{◌≡◌, ◌∷◌, [], false};
ghost use Rattle.isle_meta.specs.TableNames.{repeats};
ghost use Rattle.isle_prelude_files.specs.Outputs.{AddsNoSeconds, KeepsCounts};
ghost use Rattle.isle_prelude_files.specs.PreludeFiles.{WritesPreludes, prelude_files};

use crate::names::Names;
use isle_core::Dir;
use isle_meta::{GenError, Tables};
use std::alloc::Global;

/// Makes the two texts of the numeric prelude and the two files of an instruction set, then writes them to the files of
/// these names in the folder, in this order, and returns that they are four; an empty folder leaves the names as they
/// are. No two names may be one.
///
/// `Unsupported` has the first row of the tables that isn't supported, and the first shape that it breaks; then nothing
/// was written. `Dir` and `Memory` have the number of files that were written before the directory failed, or before
/// memory ran out: these hold their texts, and every other file is as before, but that after `Dir` the next one may
/// hold anything.
pub fn generate<D: Dir>(
    alloc: Global,
    tables: &Tables,
    isle_numerics_filename: &str,
    rust_numerics_filename: &str,
    isle_opt_filename: &str,
    isle_lower_filename: &str,
    isle_dir: &str,
    dir: &mut D,
) -> Result<usize, GenError>
    requires { repeats
        (isle_numerics_filename.now ∷ rust_numerics_filename.now ∷ isle_opt_filename.now
        ∷ isle_lower_filename.now ∷ []) ≡ false }
    ensures files { WritesPreludes tables.now
        (prelude_files isle_dir.now isle_numerics_filename.now rust_numerics_filename.now
        isle_opt_filename.now isle_lower_filename.now tables.now)
        (D.files dir.old) (D.files dir.new) result }
    ensures entries { AddsNoSeconds (D.files dir.old) (D.files dir.new) }
    ensures counts { KeepsCounts result (D.counts dir.old) (D.counts dir.new) }
{
    let names = Names {
        numerics: isle_numerics_filename,
        methods: rust_numerics_filename,
        opt: isle_opt_filename,
        lower: isle_lower_filename,
        folder: isle_dir,
    };
    names.generate(alloc, tables, dir)
}
