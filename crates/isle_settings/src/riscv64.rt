//! The settings of riscv64.

ghost use Rattle.std.specs.Prelude.{◌≡◌};
ghost use Rattle.isle_settings.specs.Riscv64.{riscv64};
ghost use Rattle.isle_settings.specs.Rows.{group_of};

use crate::group::PresetItem;
use crate::rows::{GroupRow, PresetRow, SettingRow};

/// The flags, in order.
const SETTINGS: [SettingRow; 33] = [
    SettingRow::Flag("has_m", true),
    SettingRow::Flag("has_a", true),
    SettingRow::Flag("has_f", true),
    SettingRow::Flag("has_d", true),
    SettingRow::Flag("has_zfa", false),
    SettingRow::Flag("has_zfhmin", false),
    SettingRow::Flag("has_zfh", false),
    SettingRow::Flag("has_v", false),
    SettingRow::Flag("has_zvfh", false),
    SettingRow::Flag("has_zca", false),
    SettingRow::Flag("has_zcd", false),
    SettingRow::Flag("has_zcb", false),
    SettingRow::Flag("has_zbkb", false),
    SettingRow::Flag("has_zba", false),
    SettingRow::Flag("has_zbb", false),
    SettingRow::Flag("has_zbc", false),
    SettingRow::Flag("has_zbs", false),
    SettingRow::Flag("has_zicond", false),
    SettingRow::Flag("has_zvbb", false),
    SettingRow::Flag("has_zicsr", true),
    SettingRow::Flag("has_zifencei", true),
    SettingRow::Flag("has_zvl32b", false),
    SettingRow::Flag("has_zvl64b", false),
    SettingRow::Flag("has_zvl128b", false),
    SettingRow::Flag("has_zvl256b", false),
    SettingRow::Flag("has_zvl512b", false),
    SettingRow::Flag("has_zvl1024b", false),
    SettingRow::Flag("has_zvl2048b", false),
    SettingRow::Flag("has_zvl4096b", false),
    SettingRow::Flag("has_zvl8192b", false),
    SettingRow::Flag("has_zvl16384b", false),
    SettingRow::Flag("has_zvl32768b", false),
    SettingRow::Flag("has_zvl65536b", false),
];

/// The presets, in order, with the places of flags and of presets before them.
const PRESETS: [PresetRow; 13] = [
    PresetRow {
        name: "has_c",
        items: &[PresetItem::Flag(9), PresetItem::Flag(10)],
    },
    PresetRow {
        name: "zvl32b",
        items: &[PresetItem::Flag(21)],
    },
    PresetRow {
        name: "zvl64b",
        items: &[PresetItem::Flag(22), PresetItem::Preset(1)],
    },
    PresetRow {
        name: "zvl128b",
        items: &[PresetItem::Flag(23), PresetItem::Preset(2)],
    },
    PresetRow {
        name: "zvl256b",
        items: &[PresetItem::Flag(24), PresetItem::Preset(3)],
    },
    PresetRow {
        name: "zvl512b",
        items: &[PresetItem::Flag(25), PresetItem::Preset(4)],
    },
    PresetRow {
        name: "zvl1024b",
        items: &[PresetItem::Flag(26), PresetItem::Preset(5)],
    },
    PresetRow {
        name: "zvl2048b",
        items: &[PresetItem::Flag(27), PresetItem::Preset(6)],
    },
    PresetRow {
        name: "zvl4096b",
        items: &[PresetItem::Flag(28), PresetItem::Preset(7)],
    },
    PresetRow {
        name: "zvl8192b",
        items: &[PresetItem::Flag(29), PresetItem::Preset(8)],
    },
    PresetRow {
        name: "zvl16384b",
        items: &[PresetItem::Flag(30), PresetItem::Preset(9)],
    },
    PresetRow {
        name: "zvl32768b",
        items: &[PresetItem::Flag(31), PresetItem::Preset(10)],
    },
    PresetRow {
        name: "zvl65536b",
        items: &[PresetItem::Flag(32), PresetItem::Preset(11)],
    },
];

/// Returns the settings of riscv64.
#[tactic(auto, unfolding(crate::specs::Riscv64::riscv64))]
pub fn riscv64() -> GroupRow
    ensures { group_of result ≡ riscv64 }
{
    GroupRow {
        name: "riscv64",
        settings: &SETTINGS,
        presets: &PRESETS,
    }
}
