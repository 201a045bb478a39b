//! Units made of the rows of their table.

ghost use Rattle.std.specs.Prelude.{◌≡◌, IfOk, map};
ghost use Rattle.isle_core.specs.Inputs.{bytes_each};
ghost use Rattle.isle_meta.specs.Layout.{joined_name};
ghost use Rattle.isle_units.specs.Rows.{texts_of, unit_of};
ghost use Rattle.isle_units.specs.Units.{isle_units, lower_paths};

use crate::compilation::IsleCompilation;
use crate::compilations::IsleCompilations;
use crate::joining::joined_to;
use crate::rows::{UNITS, UnitRow};
use isle_core::{List, OutOfMemory, Text};
use std::alloc::{AllocError, Global};

// Names, each joined to a folder.
fn joined_names(
    alloc: Global,
    folder: &str,
    names: &[&'static str],
) -> Result<Vec<String>, AllocError>
    ensures { IfOk result (λ paths.
        bytes_each paths.items ≡ map (joined_name folder.now) (texts_of names.now)) }
{
    let mut paths = Vec::new(alloc);
    for name in names {
        paths.push(joined_to(alloc, folder, name)?)?;
    }
    Ok(paths)
}

// The same as texts.
fn joined_texts(
    alloc: Global,
    folder: &str,
    names: &[&'static str],
) -> Result<List<Text>, AllocError>
    ensures { IfOk result (λ paths. paths ≡ map (joined_name folder.now) (texts_of names.now)) }
{
    let mut paths = Vec::new(alloc);
    for name in names {
        paths.push(Text::new(joined_to(alloc, folder, name)?))?;
    }
    Ok(List::new(paths))
}

// The unit of a row.
fn unit_of(
    alloc: Global,
    sources: &str,
    gen_dir: &str,
    row: &UnitRow,
) -> Result<IsleCompilation, AllocError>
    ensures { IfOk result (λ u. u ≡ unit_of sources.now gen_dir.now row.now) }
{
    Ok(IsleCompilation {
        name: Text::copied(alloc, row.name)?,
        output: Text::new(joined_to(alloc, gen_dir, row.output)?),
        tracked_inputs: joined_texts(alloc, sources, row.tracked)?,
        untracked_inputs: joined_texts(alloc, gen_dir, row.untracked)?,
    })
}

// The units of rows, in order.
fn units_of(
    alloc: Global,
    sources: &str,
    gen_dir: &str,
    rows: &[UnitRow],
) -> Result<List<IsleCompilation>, AllocError>
    ensures { IfOk result (λ items. items ≡ map (unit_of sources.now gen_dir.now) rows.now) }
{
    let mut items = Vec::new(alloc);
    for row in rows {
        items.push(unit_of(alloc, sources, gen_dir, row)?)?;
    }
    Ok(List::new(items))
}

/// Returns the six units: what is written lies in the first folder, and what is generated in the second; an empty
/// folder leaves names as they are. The only error is want of memory.
#[tactic(auto, unfolding(crate::specs::Units::isle_units))]
pub fn get_isle_compilations(
    alloc: Global,
    codegen_crate_dir: &str,
    gen_dir: &str,
) -> Result<IsleCompilations, OutOfMemory>
    ensures { IfOk result (λ units. units ≡ isle_units codegen_crate_dir.now gen_dir.now) }
{
    let items = units_of(alloc, codegen_crate_dir, gen_dir, &UNITS)?;
    Ok(IsleCompilations { items })
}

/// The names of the shared files of lowering.
const LOWER_NAMES: [&str; 3] = [
    "src/inst_specs.isle",
    "src/prelude.isle",
    "src/prelude_lower.isle",
];

/// Returns the paths of the files of lowering that all targets share, in the folder of their sources. The only error is
/// want of memory.
pub fn shared_isle_lower_paths(
    alloc: Global,
    codegen_crate_dir: &str,
) -> Result<Vec<String>, OutOfMemory>
    ensures { IfOk result (λ paths. bytes_each paths.items ≡ lower_paths codegen_crate_dir.now) }
{
    let paths = joined_names(alloc, codegen_crate_dir, &LOWER_NAMES)?;
    Ok(paths)
}
