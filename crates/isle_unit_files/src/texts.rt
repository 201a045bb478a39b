//! The check of the tables, and the texts that are made of them.

ghost use Rattle.std.specs.Prelude.{◌≡◌, IfOk, string_bytes};
ghost use Rattle.isle_prelude_files.specs.Made.{of_table};
ghost use Rattle.isle_pulley.specs.RuleFile.{pulley_defs};
ghost use Rattle.isle_pulley.specs.RustText.{pulley_rust};
ghost use Rattle.isle_unit_files.specs.Made.{AreAllTexts, AreBuildTexts, AreIsleTexts, ChecksAll};
ghost use Rattle.isle_writing.specs.Text.{def_texts};

use isle_core::OutOfMemory;
use isle_meta::{GenError, TableFail, Tables};
use isle_numeric_methods::numerics_rust;
use isle_numeric_text::numerics_isle;
use isle_prelude::{lower_of, opt_of};
use isle_table_check::check_tables;
use std::alloc::{AllocError, Global};

/// The six texts among rules.
#[derive(Drop)]
pub struct IsleTexts {
    pub numerics: String,
    pub methods: String,
    pub opt: String,
    pub lower: String,
    pub pulley: String,
    pub assembler: String,
}

/// The texts that are made for each build: those among rules, and the methods of an assembler in Rust.
#[derive(Drop)]
pub struct BuildTexts {
    pub rules: IsleTexts,
    pub assembler: String,
}

/// All texts: those of each build, and Pulley's instructions in Rust.
#[derive(Drop)]
pub struct AllTexts {
    pub pulley: String,
    pub build: BuildTexts,
}

// The refusal of tables, if no file was written.
fn of_table(fail: TableFail) -> GenError
    ensures { result ≡ of_table fail }
{
    match fail {
        TableFail::Unsupported(found) => GenError::Unsupported(found),
        TableFail::Memory => GenError::Memory { written: 0 },
    }
}

/// Checks the tables. `Unsupported` has the first row that isn't supported, and the first shape that it breaks;
/// `Memory` says that memory ran out.
pub fn checked(alloc: Global, tables: &Tables) -> Result<(), GenError>
    ensures { ChecksAll tables.now result }
{
    match check_tables(alloc, tables) {
        Ok(()) => Ok(()),
        Err(fail) => Err(of_table(fail)),
    }
}

// The rules of Pulley's operations.
fn pulley_rules(alloc: Global, tables: &Tables) -> Result<String, AllocError>
    ensures { IfOk result (λ text.
        string_bytes text ≡ def_texts (pulley_defs tables.now.ops tables.now.extended_ops)) }
{
    let (ops, extended) = (tables.ops.as_slice(), tables.extended_ops.as_slice());
    isle_pulley::rules_of(alloc, ops, extended)
}

/// Makes Pulley's instructions in Rust, whether the rows of the tables are supported or not. The only error is want of
/// memory.
pub fn pulley_text(alloc: Global, tables: &Tables) -> Result<String, AllocError>
    ensures { IfOk result (λ text.
        string_bytes text ≡ pulley_rust tables.now.ops tables.now.extended_ops) }
{
    let (ops, extended) = (tables.ops.as_slice(), tables.extended_ops.as_slice());
    isle_pulley::rust_of(alloc, ops, extended)
}

/// Makes the texts among rules, whether the rows of the tables are supported or not. The only error is want of memory.
pub fn isle_texts(alloc: Global, tables: &Tables) -> Result<IsleTexts, OutOfMemory>
    ensures { IfOk result (AreIsleTexts tables.now) }
{
    Ok(IsleTexts {
        numerics: numerics_isle(alloc)?,
        methods: numerics_rust(alloc)?,
        opt: opt_of(alloc, tables)?,
        lower: lower_of(alloc, tables)?,
        pulley: pulley_rules(alloc, tables)?,
        assembler: isle_assembler::rules_of(alloc, tables.x64.as_slice())?,
    })
}

/// Makes the texts of each build. The only error is want of memory.
pub fn build_texts(alloc: Global, tables: &Tables) -> Result<BuildTexts, OutOfMemory>
    ensures { IfOk result (AreBuildTexts tables.now) }
{
    Ok(BuildTexts {
        assembler: isle_assembler::methods_of(alloc, tables.x64.as_slice())?,
        rules: isle_texts(alloc, tables)?,
    })
}

/// Makes all texts. The only error is want of memory.
pub fn all_texts(alloc: Global, tables: &Tables) -> Result<AllTexts, OutOfMemory>
    ensures { IfOk result (AreAllTexts tables.now) }
{
    Ok(AllTexts {
        pulley: pulley_text(alloc, tables)?,
        build: build_texts(alloc, tables)?,
    })
}
