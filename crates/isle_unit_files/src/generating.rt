//! The files that are generated for units, made from tables and written.

ghost use Rattle.std.specs.Prelude.{◌≡◌, ◌++◌, true};
ghost use Rattle.isle_prelude_files.specs.Outputs.{AddsNoSeconds, KeepsCounts, Writes};
ghost use Rattle.isle_prelude_files.specs.PreludeFiles.{WritesPreludes};
ghost use Rattle.isle_unit_files.specs.UnitFiles.{WritesAny, all_files, has_pulley, is_pulley};
ghost use Rattle.isle_unit_files.specs.UnitFiles.{isle_files, macro_file, pulley_file, rust_files};

use crate::outputs::{Folders, write_all, write_build, write_isle, write_pulley};
use crate::texts::{all_texts, build_texts, checked, isle_texts, pulley_text};
use isle_core::Dir;
use isle_meta::{GenError, Tables};
use isle_settings::Isa;
use std::alloc::Global;

// Whether this is one of Pulley's two targets.
fn is_pulley(isa: Isa) -> bool
    ensures { result ≡ is_pulley isa }
{
    match isa {
        Isa::X86 | Isa::Arm64 | Isa::S390x | Isa::Riscv64 => false,
        Isa::Pulley32 | Isa::Pulley64 => true,
    }
}

// Whether a target of Pulley is among these.
fn has_pulley(isas: &[Isa]) -> bool
    ensures { result ≡ has_pulley isas.now }
{
    for isa in isas {
        if is_pulley(*isa) {
            return true;
        }
    }
    false
}

// Makes Pulley's instructions in Rust, and writes them.
fn generate_pulley<D: Dir>(
    alloc: Global,
    tables: &Tables,
    out_dir: &str,
    dir: &mut D,
) -> Result<usize, GenError>
    ensures files { Writes (pulley_file true out_dir.now tables.now) (D.files dir.old)
        (D.files dir.new) result }
    ensures entries { AddsNoSeconds (D.files dir.old) (D.files dir.new) }
    ensures counts { KeepsCounts result (D.counts dir.old) (D.counts dir.new) }
{
    match pulley_text(alloc, tables) {
        Ok(text) => write_pulley(alloc, out_dir, &text, dir),
        Err(_) => Err(GenError::Memory { written: 0 }),
    }
}

// Makes the files of each build, and writes them.
fn generate_build<D: Dir>(
    alloc: Global,
    tables: &Tables,
    folders: Folders<'_>,
    dir: &mut D,
) -> Result<usize, GenError>
    ensures files { Writes
        (isle_files folders.entry.rules.now tables.now
        ++ macro_file folders.entry.out.now tables.now)
        (D.files dir.old) (D.files dir.new) result }
    ensures entries { AddsNoSeconds (D.files dir.old) (D.files dir.new) }
    ensures counts { KeepsCounts result (D.counts dir.old) (D.counts dir.new) }
{
    match build_texts(alloc, tables) {
        Ok(texts) => write_build(alloc, folders, &texts, dir),
        Err(_) => Err(GenError::Memory { written: 0 }),
    }
}

// Makes all files, and writes them.
fn generate_all<D: Dir>(
    alloc: Global,
    tables: &Tables,
    folders: Folders<'_>,
    dir: &mut D,
) -> Result<usize, GenError>
    ensures files { Writes
        (pulley_file true folders.entry.out.now tables.now
        ++ (isle_files folders.entry.rules.now tables.now
        ++ macro_file folders.entry.out.now tables.now))
        (D.files dir.old) (D.files dir.new) result }
    ensures entries { AddsNoSeconds (D.files dir.old) (D.files dir.new) }
    ensures counts { KeepsCounts result (D.counts dir.old) (D.counts dir.new) }
{
    match all_texts(alloc, tables) {
        Ok(texts) => write_all(alloc, folders, &texts, dir),
        Err(_) => Err(GenError::Memory { written: 0 }),
    }
}

// Makes the files among rules, and writes them.
fn generate_rules<D: Dir>(
    alloc: Global,
    tables: &Tables,
    isle_dir: &str,
    dir: &mut D,
) -> Result<usize, GenError>
    ensures files { Writes (isle_files isle_dir.now tables.now) (D.files dir.old)
        (D.files dir.new) result }
    ensures entries { AddsNoSeconds (D.files dir.old) (D.files dir.new) }
    ensures counts { KeepsCounts result (D.counts dir.old) (D.counts dir.new) }
{
    match isle_texts(alloc, tables) {
        Ok(texts) => write_isle(alloc, isle_dir, &texts, dir),
        Err(_) => Err(GenError::Memory { written: 0 }),
    }
}

/// Writes `pulley_inst_gen.rs` in the folder if a target of Pulley is among these, and returns how many files were
/// written, none or one. The tables are checked in both cases; an empty folder leaves the name as it is.
///
/// `Unsupported` has the first row of the tables that isn't supported, and the first shape that it breaks; then nothing
/// was written. `Dir` and `Memory` say that the directory failed, or that memory ran out, before the file was written;
/// every other file is as before, and after `Dir` this one may hold anything (`specs/UnitFiles.antt`).
pub fn generate_rust<D: Dir>(
    alloc: Global,
    tables: &Tables,
    isas: &[Isa],
    out_dir: &str,
    dir: &mut D,
) -> Result<usize, GenError>
    ensures files { WritesAny tables.now (rust_files out_dir.now tables.now isas.now)
        (D.files dir.old) (D.files dir.new) result }
    ensures entries { AddsNoSeconds (D.files dir.old) (D.files dir.new) }
    ensures counts { KeepsCounts result (D.counts dir.old) (D.counts dir.new) }
{
    match checked(alloc, tables) {
        Ok(()) => {}
        Err(fail) => return Err(fail),
    }
    if has_pulley(isas) {
        generate_pulley(alloc, tables, out_dir, dir)
    } else {
        Ok(0)
    }
}

/// Writes in the folder, in this order, `numerics.isle`, `isle_numerics.rs`, `clif_opt.isle`, `clif_lower.isle`,
/// `pulley_gen.isle` and `assembler.isle`, and returns that they are six; an empty folder leaves the names as they are.
///
/// `Unsupported` is as with `generate_rust`. `Dir` and `Memory` have the number of files that were written before the
/// directory failed, or before memory ran out: these hold their texts, and every other file is as before, but that
/// after `Dir` the next one may hold anything.
pub fn generate_isle<D: Dir>(
    alloc: Global,
    tables: &Tables,
    isle_dir: &str,
    dir: &mut D,
) -> Result<usize, GenError>
    ensures files { WritesPreludes tables.now (isle_files isle_dir.now tables.now)
        (D.files dir.old) (D.files dir.new) result }
    ensures entries { AddsNoSeconds (D.files dir.old) (D.files dir.new) }
    ensures counts { KeepsCounts result (D.counts dir.old) (D.counts dir.new) }
{
    match checked(alloc, tables) {
        Ok(()) => generate_rules(alloc, tables, isle_dir, dir),
        Err(fail) => Err(fail),
    }
}

/// Writes the file of `generate_rust` in the one folder, then those of `generate_isle` in the other, and then
/// `assembler-isle-macro.rs` in the first, and returns how many they are: eight with a target of Pulley, and else
/// seven. The folders may be one. Its errors are those of `generate_isle`.
pub fn generate<D: Dir>(
    alloc: Global,
    tables: &Tables,
    isas: &[Isa],
    out_dir: &str,
    isle_dir: &str,
    dir: &mut D,
) -> Result<usize, GenError>
    ensures files { WritesPreludes tables.now
        (all_files out_dir.now isle_dir.now tables.now isas.now)
        (D.files dir.old) (D.files dir.new) result }
    ensures entries { AddsNoSeconds (D.files dir.old) (D.files dir.new) }
    ensures counts { KeepsCounts result (D.counts dir.old) (D.counts dir.new) }
{
    match checked(alloc, tables) {
        Ok(()) => {}
        Err(fail) => return Err(fail),
    }
    let folders = Folders {
        out: out_dir,
        rules: isle_dir,
    };
    if has_pulley(isas) {
        generate_all(alloc, tables, folders, dir)
    } else {
        generate_build(alloc, tables, folders, dir)
    }
}
