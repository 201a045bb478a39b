//! The terms of rows.

ghost use Rattle.std.specs.Prelude.{◌≡◌, ◌++◌, IfOk, OnOk};
ghost use Rattle.isle_meta.specs.declared.pulley.PulleyInst.{PulleyInst as Row};
ghost use Rattle.isle_pulley_rows.specs.PulleyRow.{row_terms};
ghost use Rattle.isle_pulley_rows.specs.Told.{AreTermed};

use crate::fields::is_skipped;
use isle_core::{List, Text};
use isle_meta::PulleyInst;
use std::alloc::{AllocError, Global};

/// A row beside its terms.
#[derive(Drop)]
pub struct Termed<'t> {
    pub row: &'t PulleyInst,
    pub terms: List<Text>,
}

// A name behind a prefix.
fn prefixed(alloc: Global, prefix: &str, name: &str) -> Result<Text, AllocError>
    ensures { IfOk result (λ term. term ≡ prefix.now ++ name.now) }
{
    let mut text = String::new(alloc);
    text.push_str(prefix)?;
    text.push_str(name)?;
    Ok(Text::new(text))
}

// The terms of a row.
fn row_terms(alloc: Global, row: &PulleyInst) -> Result<List<Text>, AllocError>
    ensures { IfOk result (λ terms. terms ≡ row_terms row.now) }
{
    let mut terms = Vec::new(alloc);
    if !is_skipped(row) {
        terms.push(prefixed(alloc, "pulley_", row.snake_name.as_str())?)?;
        terms.push(prefixed(alloc, "RawInst.", row.name.as_str())?)?;
    }
    Ok(List::new(terms))
}

// Puts rows with their terms behind others.
fn push_termed<'t>(
    alloc: Global,
    found: &mut Vec<Termed<'t>>,
    rows: &'t [PulleyInst],
) -> Result<(), AllocError>
    ensures { (before : List Row) → AreTermed found.old.items before
        → OnOk result (AreTermed found.new.items (before ++ rows.now)) }
{
    for row in rows {
        found.push(Termed {
            row,
            terms: row_terms(alloc, row)?,
        })?;
    }
    Ok(())
}

/// Returns the rows of two lists with their terms, in order. The only error is want of memory.
pub fn with_terms<'t>(
    alloc: Global,
    ops: &'t [PulleyInst],
    extended: &'t [PulleyInst],
) -> Result<Vec<Termed<'t>>, AllocError>
    ensures { IfOk result (λ found. AreTermed found.items (ops.now ++ extended.now)) }
{
    let mut found = Vec::new(alloc);
    push_termed(alloc, &mut found, ops)?;
    push_termed(alloc, &mut found, extended)?;
    Ok(found)
}
