//! The files that are written for units, by the unit's name.

ghost use Rattle.std.specs.Prelude.{◌≡◌, [], codes};
ghost use Rattle.std.specs.Option.{option_map_or};
ghost use Rattle.isle_units.specs.Lookup.{first_named};
ghost use Rattle.isle_units.specs.Rows.{texts_of};
ghost use Rattle.isle_units.specs.Units.{isle_units};
ghost use Rattle.isle_units.specs.declared.compilation.IsleCompilation.{IsleCompilation};

use crate::rows::UNITS;

/// Returns the names of the files that are written for the unit of this name, in the current folder, in order; without
/// such a unit there are none.
#[tactic(auto, unfolding(crate::specs::Units::isle_units))]
pub fn tracked_names(unit: &str) -> &'static [&'static str]
    ensures { texts_of result.now ≡ option_map_or (λ (u : IsleCompilation). u.tracked_inputs)
        (first_named unit.now (isle_units [] (codes "gen"))) [] }
{
    match unit {
        "opt" => UNITS[0].tracked,
        "x64" => UNITS[1].tracked,
        "aarch64" => UNITS[2].tracked,
        "s390x" => UNITS[3].tracked,
        "riscv64" => UNITS[4].tracked,
        "pulley" => UNITS[5].tracked,
        _ => &[],
    }
}
