//! The texts of two lists of rows, whether these are supported or not.

ghost use Rattle.std.specs.Prelude.{◌≡◌, List, ℕ, None, IfOk, string_bytes};
ghost use Rattle.isle_pulley.specs.Display.{display_item};
ghost use Rattle.isle_pulley_rows.specs.Operations.{operations as operations_in};
ghost use Rattle.isle_pulley_rows.specs.PulleyRows.{IsFirstOperation};
ghost use Rattle.isle_pulley.specs.RuleFile.{pulley_defs};
ghost use Rattle.isle_pulley.specs.RustText.{pulley_rust};
ghost use Rattle.isle_writing.specs.Spelt.{SpellsOnly};
ghost use Rattle.isle_writing.specs.Text.{def_texts};

use crate::display::push_display;
use crate::emission::rust_items;
use crate::rules::rule_file;
use isle_meta::PulleyInst;
use isle_pulley_rows::operations;
use std::alloc::{AllocError, Global};

/// Returns the rule text of two lists of rows, whether they are supported or not (`pulley_defs` of
/// `specs/RuleFile.antt`). It spells these definitions and no others where all rows are supported, whatever terms come
/// before theirs. The only error is want of memory.
#[tactic(auto, using(crate::proofs::RuleLaws::file_law, crate::proofs::RuleWritable::rules_spell))]
pub fn rules_of(
    alloc: Global,
    ops: &[PulleyInst],
    extended: &[PulleyInst],
) -> Result<String, AllocError>
    ensures written { IfOk result (λ text.
        string_bytes text ≡ def_texts (pulley_defs ops.now extended.now)) }
    ensures spelt { (earlier : List (List ℕ)) → IsFirstOperation earlier ops.now extended.now None
        → IfOk result (λ text.
        SpellsOnly (string_bytes text) (pulley_defs ops.now extended.now)) }
{
    let found = operations(alloc, ops, extended)?;
    rule_file(alloc, found.as_slice())
}

/// Returns the Rust text of two lists of rows, whether they are supported or not (`pulley_rust` of
/// `specs/RustText.antt`). The only error is want of memory.
pub fn rust_of(
    alloc: Global,
    ops: &[PulleyInst],
    extended: &[PulleyInst],
) -> Result<String, AllocError>
    ensures { IfOk result (λ text. string_bytes text ≡ pulley_rust ops.now extended.now) }
{
    let found = operations(alloc, ops, extended)?;
    rust_items(alloc, found.as_slice())
}

/// Returns the first item of the Rust text. The only error is want of memory.
pub fn display_of(
    alloc: Global,
    ops: &[PulleyInst],
    extended: &[PulleyInst],
) -> Result<String, AllocError>
    ensures { IfOk result (λ text.
        string_bytes text ≡ display_item (operations_in ops.now extended.now)) }
{
    let found = operations(alloc, ops, extended)?;
    let mut text = String::new(alloc);
    push_display(&mut text, found.as_slice())?;
    Ok(text)
}
