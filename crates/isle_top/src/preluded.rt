//! The text of a prelude.

ghost use Rattle.std.specs.Prelude.{◌≡◌, List, IfOk, IfErr};
ghost use Rattle.std.specs.String.{string_bytes};
ghost use Rattle.isle_assembler.specs.AssemblerDefs.{assembler_defs, assembler_layout};
ghost use Rattle.isle_assembler.specs.Methods.{assembler_methods};
ghost use Rattle.isle_ast.specs.Tree.{Def};
ghost use Rattle.isle_meta.specs.declared.tables.Tables.{Tables as Rows};
ghost use Rattle.isle_prelude.specs.Generated.{Generates, IsTextOf};
ghost use Rattle.isle_pulley.specs.RuleFile.{pulley_defs};
ghost use Rattle.isle_pulley.specs.RustText.{pulley_rust};
ghost use Rattle.isle_table_check.specs.SupportedTables.{AreSupported};
ghost use Rattle.isle_top.specs.PreludeLine.{AreRulesOf, FailsByRows, FailsToWrite, IsPrelude};
ghost use Rattle.isle_top.specs.PreludeLine.{IsRustOf};
ghost use Rattle.isle_writing.specs.LaidDefs.{laid_texts};
ghost use Rattle.isle_writing.specs.Text.{def_texts};

use crate::refusal::Refusal;
use isle_codegen::FileError;
use isle_command_line::Kind;
use isle_meta::{TableFail, Tables};
use isle_numeric_methods::numerics_rust;
use isle_numeric_text::numerics_isle;
use isle_prelude::{gen_lower, gen_opt};
use isle_table_check::check_tables;
use std::alloc::Global;

// A text that is made of rows, or why it isn't written.
fn by_rows(text: Result<String, TableFail>) -> Result<String, Refusal>
    ensures ok { (t : Rows) (defs : List Def) → Generates t defs text
        → IfOk result (λ given. IsTextOf t defs (string_bytes given)) }
    ensures err { (t : Rows) (defs : List Def) → Generates t defs text
        → IfErr result (FailsByRows t) }
{
    match text {
        Ok(text) => Ok(text),
        Err(TableFail::Unsupported(found)) => Err(Refusal::Tables(found)),
        Err(TableFail::Memory) => Err(Refusal::Files(FileError::Memory)),
    }
}

// Checks the tables: each row is supported, or nothing is made of them.
fn checked(alloc: Global, tables: &Tables) -> Result<(), Refusal>
    ensures ok { IfOk result (λ done. AreSupported tables.now) }
    ensures err { IfErr result (FailsByRows tables.now) }
{
    match check_tables(alloc, tables) {
        Ok(()) => Ok(()),
        Err(TableFail::Unsupported(first)) => Err(Refusal::Tables(first)),
        Err(TableFail::Memory) => Err(Refusal::Files(FileError::Memory)),
    }
}

// The rules of the assembler.
fn assembler(alloc: Global, tables: &Tables) -> Result<String, Refusal>
    ensures ok { IfOk result (λ text.
        AreRulesOf tables.now (laid_texts (assembler_layout tables.now.x64))
        (assembler_defs tables.now.x64) (string_bytes text)) }
    ensures err { IfErr result (FailsByRows tables.now) }
{
    checked(alloc, tables)?;
    Ok(isle_assembler::rules_of(alloc, tables.x64.as_slice())?)
}

// The Rust text of the assembler.
fn assembler_rust(alloc: Global, tables: &Tables) -> Result<String, Refusal>
    ensures ok { IfOk result (λ text.
        IsRustOf tables.now (assembler_methods tables.now.x64) (string_bytes text)) }
    ensures err { IfErr result (FailsByRows tables.now) }
{
    checked(alloc, tables)?;
    Ok(isle_assembler::methods_of(alloc, tables.x64.as_slice())?)
}

// The rules of the interpreter.
fn pulley(alloc: Global, tables: &Tables) -> Result<String, Refusal>
    ensures ok { IfOk result (λ text.
        let defs = pulley_defs tables.now.ops tables.now.extended_ops in
        AreRulesOf tables.now (def_texts defs) defs (string_bytes text)) }
    ensures err { IfErr result (FailsByRows tables.now) }
{
    checked(alloc, tables)?;
    let (ops, extended) = (tables.ops.as_slice(), tables.extended_ops.as_slice());
    Ok(isle_pulley::rules_of(alloc, ops, extended)?)
}

// The Rust text of the interpreter.
fn pulley_rust(alloc: Global, tables: &Tables) -> Result<String, Refusal>
    ensures ok { IfOk result (λ text.
        IsRustOf tables.now (pulley_rust tables.now.ops tables.now.extended_ops)
        (string_bytes text)) }
    ensures err { IfErr result (FailsByRows tables.now) }
{
    checked(alloc, tables)?;
    let (ops, extended) = (tables.ops.as_slice(), tables.extended_ops.as_slice());
    Ok(isle_pulley::rust_of(alloc, ops, extended)?)
}

/// Writes the prelude of a kind over tables, and returns its text (`specs/PreludeLine.antt`). The only refusals are
/// want of memory and, of a kind that is made of rows, the first row of the tables that isn't supported.
pub fn preluded(alloc: Global, tables: &Tables, kind: Kind) -> Result<String, Refusal>
    ensures ok { IfOk result (λ text. IsPrelude tables.now kind (string_bytes text)) }
    ensures err { IfErr result (FailsToWrite kind tables.now) }
{
    match kind {
        Kind::Numerics => Ok(numerics_isle(alloc)?),
        Kind::NumericsRust => Ok(numerics_rust(alloc)?),
        Kind::ClifOpt => by_rows(gen_opt(alloc, tables)),
        Kind::ClifLower => by_rows(gen_lower(alloc, tables)),
        Kind::Assembler => assembler(alloc, tables),
        Kind::AssemblerRust => assembler_rust(alloc, tables),
        Kind::Pulley => pulley(alloc, tables),
        Kind::PulleyRust => pulley_rust(alloc, tables),
    }
}
