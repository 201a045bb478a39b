//! Texts that are written to files, in order.

ghost use Rattle.std.specs.Prelude.{◌≡◌, ◌-◌, ◌^◌, ◌≤◌, ◌<◌, Err, false, OnOk};
ghost use Rattle.isle_meta.specs.Layout.{joined_name};
ghost use Rattle.isle_meta.specs.TableNames.{repeats};
ghost use Rattle.isle_outside.specs.Directory.{Holds, KeepsEntries, KeepsOthers, Rose};
ghost use Rattle.isle_outside.specs.Failures.{is_fault};
ghost use Rattle.isle_prelude_files.specs.Outputs.{AddsNoSeconds, KeepsCounts, Writes, files_of};
ghost use Rattle.isle_prelude_files.specs.Outputs.{names_of};

use isle_core::{Dir, DirFault};
use isle_meta::{GenError, joined};
use std::alloc::Global;

/// A text that is to be written to the file of a name in a folder; an empty folder leaves the name as it is.
#[derive(Clone, Copy)]
pub struct Output<'t> {
    pub folder: &'t str,
    pub name: &'t str,
    pub text: &'t str,
}

// Writes one file.
fn write_one<D: Dir>(alloc: Global, output: &Output<'_>, dir: &mut D) -> Result<(), DirFault>
    ensures holds { OnOk result
        (Holds (D.files dir.new) (joined_name output.now.folder.now output.now.name.now)
        output.now.text.now) }
    ensures others { KeepsOthers (D.files dir.old) (D.files dir.new)
        (joined_name output.now.folder.now output.now.name.now) }
    ensures entries { KeepsEntries (D.files dir.old) (D.files dir.new)
        (joined_name output.now.folder.now output.now.name.now) }
    ensures memory { result ≡ Err DirFault.Memory → D.files dir.new ≡ D.files dir.old }
    ensures later { (D.counts dir.old).faults ≤ (D.counts dir.new).faults }
    ensures stays { (D.counts dir.old).faults ≡ 2 ^ 64 - 1
        → (D.counts dir.new).faults ≡ 2 ^ 64 - 1 }
    ensures failed { result ≡ Err DirFault.Failed
        → Rose (D.counts dir.old).faults (D.counts dir.new).faults }
    ensures steady { is_fault result ≡ false
        → (D.counts dir.new).faults ≡ (D.counts dir.old).faults }
    ensures finds { (D.counts dir.new).finds ≡ (D.counts dir.old).finds }
    ensures given { (D.counts dir.new).given ≡ (D.counts dir.old).given }
{
    if output.folder.is_empty() {
        return dir.write_file(output.name, output.text.as_bytes());
    }
    match joined(alloc, output.folder, output.name) {
        Ok(path) => dir.write_file(path.as_str(), output.text.as_bytes()),
        Err(_) => Err(DirFault::Memory),
    }
}

/// Writes files in order, and returns how many they are; no two have one name. After `Dir` and `Memory`, which have the
/// number of files that were written before, those hold their texts, and no file behind the next one was touched; after
/// `Dir` that one may hold anything.
pub fn write_files<D: Dir>(
    alloc: Global,
    outputs: &[Output<'_>],
    dir: &mut D,
) -> Result<usize, GenError>
    requires { repeats (names_of (files_of outputs.now)) ≡ false }
    ensures files { Writes (files_of outputs.now) (D.files dir.old) (D.files dir.new) result }
    ensures entries { AddsNoSeconds (D.files dir.old) (D.files dir.new) }
    ensures counts { KeepsCounts result (D.counts dir.old) (D.counts dir.new) }
{
    let mut written = 0;
    for output in outputs {
        match write_one(alloc, output, dir) {
            Ok(()) => written += 1,
            Err(DirFault::Failed) => return Err(GenError::Dir { written }),
            Err(DirFault::Memory) => return Err(GenError::Memory { written }),
        }
    }
    Ok(written)
}
