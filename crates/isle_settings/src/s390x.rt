//! The settings of s390x.

ghost use Rattle.std.specs.Prelude.{◌≡◌};
ghost use Rattle.isle_settings.specs.S390x.{s390x};
ghost use Rattle.isle_settings.specs.Rows.{group_of};

use crate::group::PresetItem;
use crate::rows::{GroupRow, PresetRow, SettingRow};

/// The flags, in order.
const SETTINGS: [SettingRow; 4] = [
    SettingRow::Flag("has_mie3", false),
    SettingRow::Flag("has_vxrs_ext2", false),
    SettingRow::Flag("has_mie4", false),
    SettingRow::Flag("has_vxrs_ext3", false),
];

/// The presets, in order, with the places of flags and of presets before them.
const PRESETS: [PresetRow; 6] = [
    PresetRow {
        name: "arch13",
        items: &[PresetItem::Flag(0), PresetItem::Flag(1)],
    },
    PresetRow {
        name: "arch14",
        items: &[PresetItem::Flag(0), PresetItem::Flag(1)],
    },
    PresetRow {
        name: "arch15",
        items: &[
            PresetItem::Flag(0),
            PresetItem::Flag(2),
            PresetItem::Flag(1),
            PresetItem::Flag(3),
        ],
    },
    PresetRow {
        name: "z15",
        items: &[PresetItem::Flag(0), PresetItem::Flag(1)],
    },
    PresetRow {
        name: "z16",
        items: &[PresetItem::Flag(0), PresetItem::Flag(1)],
    },
    PresetRow {
        name: "z17",
        items: &[
            PresetItem::Flag(0),
            PresetItem::Flag(2),
            PresetItem::Flag(1),
            PresetItem::Flag(3),
        ],
    },
];

/// Returns the settings of s390x.
#[tactic(auto, unfolding(crate::specs::S390x::s390x))]
pub fn s390x() -> GroupRow
    ensures { group_of result ≡ s390x }
{
    GroupRow {
        name: "s390x",
        settings: &SETTINGS,
        presets: &PRESETS,
    }
}
