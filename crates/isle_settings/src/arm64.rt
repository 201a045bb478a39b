//! The settings of arm64.

ghost use Rattle.std.specs.Prelude.{◌≡◌};
ghost use Rattle.isle_settings.specs.Arm64.{arm64};
ghost use Rattle.isle_settings.specs.Rows.{group_of};

use crate::rows::{GroupRow, PresetRow, SettingRow};

/// The flags, in order.
const SETTINGS: [SettingRow; 10] = [
    SettingRow::Flag("has_lse", false),
    SettingRow::Flag("has_pauth", false),
    SettingRow::Flag("has_fp16", false),
    SettingRow::Flag("has_dotprod", false),
    SettingRow::Flag("has_i8mm", false),
    SettingRow::Flag("sign_return_address_all", false),
    SettingRow::Flag("sign_return_address", false),
    SettingRow::Flag("sign_return_address_with_bkey", false),
    SettingRow::Flag("use_bti", false),
    SettingRow::Flag("use_csdb", false),
];

/// Returns the settings of arm64.
#[tactic(auto, unfolding(crate::specs::Arm64::arm64))]
pub fn arm64() -> GroupRow
    ensures { group_of result ≡ arm64 }
{
    GroupRow {
        name: "arm64",
        settings: &SETTINGS,
        presets: &[],
    }
}
