//! Inputs that are read, and those that are generated after them.

ghost use Rattle.std.specs.Prelude.{◌≡◌, ◌++◌, ◌+◌, ◌-◌, ◌*◌, ◌^◌, ◌≤◌, length, map};
ghost use Rattle.std.specs.Prelude.{IfOk, IfErr, IfSome, OnOk};
ghost use Rattle.isle_build.specs.GeneratedFiles.{generated_texts};
ghost use Rattle.isle_codegen.specs.Causes.{AllTried};
ghost use Rattle.isle_core.specs.Inputs.{AreRead, Fails, bytes_each};
ghost use Rattle.isle_core.specs.Printed.{shown};
ghost use Rattle.isle_units.specs.Units.{inputs_of};

use crate::generated::generated_text;
use isle_core::{Dir, Files, List, OutOfMemory, Prefix, ReadError, Text, name_shown};
use isle_meta::Tables;
use isle_units::IsleCompilation;
use std::alloc::Global;

/// Cuts the names of a unit's inputs: tracked ones, and generated ones.
pub fn split_inputs<'n>(names: &'n [String], unit: &IsleCompilation) -> (&'n [String], &'n [String])
    requires { bytes_each names.now ≡ inputs_of unit.now }
    ensures tracked { bytes_each result.0.now ≡ unit.now.tracked_inputs }
    ensures generated { bytes_each result.1.now ≡ unit.now.untracked_inputs }
{
    names.split_at(unit.tracked_inputs.as_slice().len())
}

/// Reads the files of these names, in order, and notes the names as printed. `Io` gives the first that was not read;
/// else the only error is want of memory.
pub fn read_inputs<D: Dir>(
    alloc: Global,
    dir: &mut D,
    names: &[String],
    prefixes: &[Prefix],
) -> Result<Files, ReadError>
    ensures names { IfOk result (λ files.
        files.file_names ≡ map (shown prefixes.now) (bytes_each names.now)) }
    ensures texts { IfOk result (λ files.
        IfSome (D.files dir.old) (λ fs. AreRead fs (bytes_each names.now) files.file_texts)) }
    ensures count { IfOk result (λ files.
        length files.file_texts ≡ length (bytes_each names.now)) }
    ensures err { IfErr result (λ e.
        Fails e (D.files dir.old) (bytes_each names.now) (D.counts dir.old) (D.counts dir.new)) }
    ensures files { D.files dir.new ≡ D.files dir.old }
    ensures later { (D.counts dir.old).faults ≤ (D.counts dir.new).faults }
    ensures stays { (D.counts dir.old).faults ≡ 2 ^ 64 - 1
        → (D.counts dir.new).faults ≡ 2 ^ 64 - 1 }
    ensures tried { IfOk result (λ files.
        AllTried (bytes_each names.now) (D.counts dir.old) (D.counts dir.new)) }
    ensures given { (D.counts dir.new).given
        ≤ (D.counts dir.old).given + (2 ^ 24 + 1) * length (bytes_each names.now) }
{
    Files::from_paths(alloc, dir, names, prefixes)
}

// Appends names as printed.
fn push_names(
    alloc: Global,
    printed: &mut Vec<Text>,
    names: &[String],
    prefixes: &[Prefix],
) -> Result<(), OutOfMemory>
    ensures { OnOk result
        (printed.new.items ≡ printed.old.items ++ map (shown prefixes.now) (bytes_each names.now)) }
{
    for name in names {
        printed.push(name_shown(alloc, name.as_str(), prefixes)?)?;
    }
    Ok(())
}

// Appends the texts of generated files.
fn push_texts(
    alloc: Global,
    texts: &mut Vec<Text>,
    tables: &Tables,
    names: &[String],
) -> Result<(), OutOfMemory>
    ensures { OnOk result
        (texts.new.items ≡ texts.old.items ++ generated_texts tables.now (bytes_each names.now)) }
{
    for name in names {
        texts.push(Text::new(generated_text(alloc, tables, name.as_str())?))?;
    }
    Ok(())
}

/// Adds generated files: their names as printed, and their texts. The only error is want of memory.
pub fn with_generated(
    alloc: Global,
    tables: &Tables,
    files: Files,
    names: &[String],
    prefixes: &[Prefix],
) -> Result<Files, OutOfMemory>
    ensures names { IfOk result (λ all.
        all.file_names ≡ files.file_names ++ map (shown prefixes.now) (bytes_each names.now)) }
    ensures texts { IfOk result (λ all.
        all.file_texts ≡ files.file_texts ++ generated_texts tables.now (bytes_each names.now)) }
{
    let mut printed = files.file_names.into_vec();
    let mut texts = files.file_texts.into_vec();
    push_names(alloc, &mut printed, names, prefixes)?;
    push_texts(alloc, &mut texts, tables, names)?;
    Ok(Files {
        file_names: List::new(printed),
        file_texts: List::new(texts),
    })
}
