//! The text of units.

ghost use Rattle.std.specs.Prelude.{◌≡◌, ◌++◌, [], IfOk, OnOk, codes, string_bytes};
ghost use Rattle.std.specs.List.{flat_map};
ghost use Rattle.isle_units.specs.UnitLines.{input_line, unit_text, units_text};
ghost use Rattle.isle_units.specs.Units.{isle_units};

use crate::building::get_isle_compilations;
use crate::compilation::IsleCompilation;
use isle_core::{OutOfMemory, Text};
use std::alloc::{AllocError, Global};

// Appends the lines of inputs.
fn push_inputs(text: &mut String, inputs: &[Text]) -> Result<(), AllocError>
    ensures { OnOk result
        (string_bytes text.new ≡ string_bytes text.old ++ flat_map input_line inputs.now) }
{
    for input in inputs {
        text.push_str("  ")?;
        text.push_str(input.as_str())?;
        text.push_str("\n")?;
    }
    Ok(())
}

// Appends the lines of a unit.
fn push_unit(text: &mut String, unit: &IsleCompilation) -> Result<(), AllocError>
    ensures { OnOk result (string_bytes text.new ≡ string_bytes text.old ++ unit_text unit.now) }
{
    text.push_str(unit.name.as_str())?;
    text.push_str(" ")?;
    text.push_str(unit.output.as_str())?;
    text.push_str("\n")?;
    push_inputs(text, unit.tracked_inputs.as_slice())?;
    push_inputs(text, unit.untracked_inputs.as_slice())
}

// Appends the lines of units.
fn push_units(text: &mut String, units: &[IsleCompilation]) -> Result<(), AllocError>
    ensures { OnOk result
        (string_bytes text.new ≡ string_bytes text.old ++ flat_map unit_text units.now) }
{
    for unit in units {
        push_unit(text, unit)?;
    }
    Ok(())
}

/// Returns the lines of the units in the current folder, what is generated for them lying in the folder `gen`: for each
/// its name and output, and then its inputs. The only error is want of memory.
pub fn units_text(alloc: Global) -> Result<String, OutOfMemory>
    ensures { IfOk result (λ text. string_bytes text ≡ units_text (isle_units [] (codes "gen"))) }
{
    let units = get_isle_compilations(alloc, "", "gen")?;
    let mut text = String::new(alloc);
    push_units(&mut text, units.items.as_slice())?;
    Ok(text)
}
