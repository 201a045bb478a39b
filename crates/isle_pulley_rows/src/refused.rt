//! The first row that isn't supported.

ghost use Rattle.std.specs.Prelude.{◌++◌, List, ℕ, [], IfOk, OnOk};
ghost use Rattle.isle_lawful_names.specs.NameSet.{HasNames};
ghost use Rattle.isle_meta.specs.Checked.{Checks};
ghost use Rattle.isle_meta.specs.TableNames.{texts};
ghost use Rattle.isle_meta.specs.Told.{found_row};
ghost use Rattle.isle_meta.specs.declared.pulley.PulleyInst.{PulleyInst as Row};
ghost use Rattle.isle_pulley_rows.specs.PulleyRows.{IsFirstAfter, IsFirstOperation};
ghost use Rattle.isle_pulley_rows.specs.Told.{AreTermed};

use crate::check::row_faults;
use crate::faults::first_shape;
use crate::terms::{Termed, with_terms};
use isle_lawful_names::added;
use isle_meta::{PulleyInst, Shape, TableFail, checked, has_repeated_term};
use std::alloc::{AllocError, Global};
use std::collections::BTreeSet;

// Puts names into a set.
fn add_names<'n>(met: &mut BTreeSet<&'n str>, names: &[&'n str]) -> Result<(), AllocError>
    ensures { (earlier : List (List ℕ)) → HasNames earlier met.old
        → OnOk result (HasNames (earlier ++ texts names.now) met.new) }
{
    for name in names {
        added(met, name)?;
    }
    Ok(())
}

// The first of rows that isn't supported, after terms of these names; the terms of each are known.
fn unsupported_among<'t>(
    alloc: Global,
    earlier: &[&str],
    rows: &[Termed<'t>],
) -> Result<Option<(&'t str, Shape)>, AllocError>
    ensures { (own : List Row) → AreTermed rows.now own
        → IfOk result (λ found. IsFirstAfter (texts earlier.now) own (found_row found)) }
{
    let mut met = BTreeSet::new(alloc);
    add_names(&mut met, earlier)?;
    for termed in rows {
        let repeated = has_repeated_term(termed.terms.as_slice(), &mut met)?;
        let faults = row_faults(alloc, termed.row, repeated)?;
        if let Some(shape) = first_shape(&faults) {
            return Ok(Some((termed.row.name.as_str(), shape)));
        }
    }
    Ok(None)
}

/// Returns the name of the first operation that breaks a shape, and the first shape that it breaks; `earlier` has the
/// names of terms of other rows. The only error is want of memory.
pub fn unsupported_operation<'t>(
    alloc: Global,
    earlier: &[&str],
    ops: &'t [PulleyInst],
    extended: &'t [PulleyInst],
) -> Result<Option<(&'t str, Shape)>, AllocError>
    ensures { IfOk result (λ found.
        IsFirstOperation (texts earlier.now) ops.now extended.now (found_row found)) }
{
    let rows = with_terms(alloc, ops, extended)?;
    unsupported_among(alloc, earlier, rows.as_slice())
}

/// Looks for the first row that isn't supported, among `ops` and then among `extended`. `Unsupported` gives its name
/// and the first shape that it breaks, `Memory` says that memory ran out.
pub fn check_rows(
    alloc: Global,
    ops: &[PulleyInst],
    extended: &[PulleyInst],
) -> Result<(), TableFail>
    ensures { Checks (IsFirstOperation [] ops.now extended.now) result }
{
    let found = unsupported_operation(alloc, &[], ops, extended)?;
    checked(alloc, found)
}
