//! The texts of Pulley's operations, and their files.

ghost use Rattle.std.specs.Prelude.{◌≡◌, ◌∷◌, [], string_bytes};
ghost use Rattle.isle_meta.specs.Layout.{joined_name};
ghost use Rattle.isle_prelude_files.specs.Made.{of_table};
ghost use Rattle.isle_prelude_files.specs.Outputs.{AddsNoSeconds, KeepsCounts, Writes};
ghost use Rattle.isle_pulley.specs.Generated.{AppendsDisplay, GivesRules, GivesRust, WritesRows};
ghost use Rattle.isle_pulley.specs.Generated.{rule_file, rust_file};

use crate::texts::{display_of, rules_of, rust_of};
use isle_core::Dir;
use isle_meta::{GenError, PulleyInst, TableFail};
use isle_prelude_files::{Output, write_files};
use isle_pulley_rows::check_rows;
use std::alloc::Global;

/// Appends to the text the first item of the Rust text, which shows instructions. `Unsupported` has the first row that
/// isn't supported, among `ops` and then among `extended`, and the first shape that it breaks; `Memory` says that
/// memory ran out. After both the text is as before.
pub fn generate_raw_inst_display(
    alloc: Global,
    rust: &mut String,
    ops: &[PulleyInst],
    extended: &[PulleyInst],
) -> Result<(), TableFail>
    ensures { AppendsDisplay ops.now extended.now (string_bytes rust.old) (string_bytes rust.new)
        result }
{
    match check_rows(alloc, ops, extended) {
        Ok(()) => {}
        Err(fail) => return Err(fail),
    }
    let item = display_of(alloc, ops, extended)?;
    rust.push_str(item.as_str())?;
    Ok(())
}

/// Returns the rule text: the type of instructions, and of each row that isn't skipped a term and its rule. It spells
/// these definitions and no others. Its errors are those of `generate_raw_inst_display`.
pub fn isle_text(
    alloc: Global,
    ops: &[PulleyInst],
    extended: &[PulleyInst],
) -> Result<String, TableFail>
    ensures { GivesRules ops.now extended.now result }
{
    match check_rows(alloc, ops, extended) {
        Ok(()) => {}
        Err(fail) => return Err(fail),
    }
    let text = rules_of(alloc, ops, extended)?;
    Ok(text)
}

/// Returns the Rust text: how instructions are shown, which registers they read and write, and how they are emitted,
/// with an arm for each row that isn't skipped. Its errors are those of `generate_raw_inst_display`.
pub fn rust_text(
    alloc: Global,
    ops: &[PulleyInst],
    extended: &[PulleyInst],
) -> Result<String, TableFail>
    ensures { GivesRust ops.now extended.now result }
{
    match check_rows(alloc, ops, extended) {
        Ok(()) => {}
        Err(fail) => return Err(fail),
    }
    let text = rust_of(alloc, ops, extended)?;
    Ok(text)
}

// The refusal of rows, where no file was written.
fn of_table(fail: TableFail) -> GenError
    ensures { result ≡ of_table fail }
{
    match fail {
        TableFail::Unsupported(found) => GenError::Unsupported(found),
        TableFail::Memory => GenError::Memory { written: 0 },
    }
}

// Writes a text to the file of a name in a folder.
fn write_text<D: Dir>(
    alloc: Global,
    folder: &str,
    name: &str,
    text: &str,
    dir: &mut D,
) -> Result<usize, GenError>
    ensures files { Writes ((joined_name folder.now name.now, text.now) ∷ [])
        (D.files dir.old) (D.files dir.new) result }
    ensures entries { AddsNoSeconds (D.files dir.old) (D.files dir.new) }
    ensures counts { KeepsCounts result (D.counts dir.old) (D.counts dir.new) }
{
    write_files(alloc, &[Output { folder, name, text }], dir)
}

/// Makes the rule text, writes it to the file of the name in the folder, and returns that one file was written; an
/// empty folder leaves the name as it is. `Unsupported` has the first row that isn't supported and the first shape that
/// it breaks; then nothing was written. `Dir` says that the directory failed, and then the file may hold anything;
/// `Memory` that memory ran out.
pub fn generate_isle<D: Dir>(
    alloc: Global,
    filename: &str,
    out_dir: &str,
    ops: &[PulleyInst],
    extended: &[PulleyInst],
    dir: &mut D,
) -> Result<usize, GenError>
    ensures files { WritesRows ops.now extended.now
        (rule_file out_dir.now filename.now ops.now extended.now)
        (D.files dir.old) (D.files dir.new) result }
    ensures entries { AddsNoSeconds (D.files dir.old) (D.files dir.new) }
    ensures counts { KeepsCounts result (D.counts dir.old) (D.counts dir.new) }
{
    match isle_text(alloc, ops, extended) {
        Ok(text) => write_text(alloc, out_dir, filename, text.as_str(), dir),
        Err(fail) => Err(of_table(fail)),
    }
}

/// Makes the Rust text and writes it, as `generate_isle` does with the rule text.
pub fn generate_rust<D: Dir>(
    alloc: Global,
    filename: &str,
    out_dir: &str,
    ops: &[PulleyInst],
    extended: &[PulleyInst],
    dir: &mut D,
) -> Result<usize, GenError>
    ensures files { WritesRows ops.now extended.now
        (rust_file out_dir.now filename.now ops.now extended.now)
        (D.files dir.old) (D.files dir.new) result }
    ensures entries { AddsNoSeconds (D.files dir.old) (D.files dir.new) }
    ensures counts { KeepsCounts result (D.counts dir.old) (D.counts dir.new) }
{
    match rust_text(alloc, ops, extended) {
        Ok(text) => write_text(alloc, out_dir, filename, text.as_str(), dir),
        Err(fail) => Err(of_table(fail)),
    }
}
