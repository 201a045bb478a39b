//! The settings of both Pulley targets.

ghost use Rattle.std.specs.Prelude.{◌≡◌};
ghost use Rattle.isle_settings.specs.Pulley.{pulley};
ghost use Rattle.isle_settings.specs.Rows.{group_of};

use crate::rows::{GroupRow, SettingRow};

/// The settings, in order.
const SETTINGS: [SettingRow; 2] = [
    SettingRow::Choice("pointer_width", &["pointer32", "pointer64"]),
    SettingRow::Flag("big_endian", false),
];

/// Returns the settings of both.
#[tactic(auto, unfolding(crate::specs::Pulley::pulley))]
pub fn pulley() -> GroupRow
    ensures { group_of result ≡ pulley }
{
    GroupRow {
        name: "pulley",
        settings: &SETTINGS,
        presets: &[],
    }
}
