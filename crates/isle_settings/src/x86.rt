//! The settings of x86.

ghost use Rattle.std.specs.Prelude.{◌≡◌};
ghost use Rattle.isle_settings.specs.X86.{x86};
ghost use Rattle.isle_settings.specs.Rows.{group_of};

use crate::group::PresetItem;
use crate::rows::{GroupRow, PresetRow, SettingRow};

/// The flags, in order.
const SETTINGS: [SettingRow; 20] = [
    SettingRow::Flag("has_sse3", false),
    SettingRow::Flag("has_ssse3", false),
    SettingRow::Flag("has_cmpxchg16b", false),
    SettingRow::Flag("has_sse41", false),
    SettingRow::Flag("has_sse42", false),
    SettingRow::Flag("has_avx", false),
    SettingRow::Flag("has_avx2", false),
    SettingRow::Flag("has_fma", false),
    SettingRow::Flag("has_avx_vnni", false),
    SettingRow::Flag("has_avx512bitalg", false),
    SettingRow::Flag("has_avx512dq", false),
    SettingRow::Flag("has_avx512vl", false),
    SettingRow::Flag("has_avx512vbmi", false),
    SettingRow::Flag("has_avx512f", false),
    SettingRow::Flag("has_avx512vnni", false),
    SettingRow::Flag("has_apx", false),
    SettingRow::Flag("has_popcnt", false),
    SettingRow::Flag("has_bmi1", false),
    SettingRow::Flag("has_bmi2", false),
    SettingRow::Flag("has_lzcnt", false),
];

/// The presets, in order, with the places of flags and of presets before them.
const PRESETS: [PresetRow; 67] = [
    PresetRow {
        name: "sse3",
        items: &[PresetItem::Flag(0)],
    },
    PresetRow {
        name: "ssse3",
        items: &[PresetItem::Preset(0), PresetItem::Flag(1)],
    },
    PresetRow {
        name: "sse41",
        items: &[PresetItem::Preset(1), PresetItem::Flag(3)],
    },
    PresetRow {
        name: "sse42",
        items: &[PresetItem::Preset(2), PresetItem::Flag(4)],
    },
    PresetRow {
        name: "baseline",
        items: &[],
    },
    PresetRow {
        name: "nocona",
        items: &[PresetItem::Preset(0), PresetItem::Flag(2)],
    },
    PresetRow {
        name: "core2",
        items: &[PresetItem::Preset(0), PresetItem::Flag(2)],
    },
    PresetRow {
        name: "penryn",
        items: &[PresetItem::Preset(2), PresetItem::Flag(2)],
    },
    PresetRow {
        name: "atom",
        items: &[PresetItem::Preset(1), PresetItem::Flag(2)],
    },
    PresetRow {
        name: "bonnell",
        items: &[PresetItem::Preset(8)],
    },
    PresetRow {
        name: "silvermont",
        items: &[
            PresetItem::Preset(8),
            PresetItem::Preset(3),
            PresetItem::Flag(16),
        ],
    },
    PresetRow {
        name: "slm",
        items: &[PresetItem::Preset(10)],
    },
    PresetRow {
        name: "goldmont",
        items: &[PresetItem::Preset(10)],
    },
    PresetRow {
        name: "goldmont-plus",
        items: &[PresetItem::Preset(12)],
    },
    PresetRow {
        name: "tremont",
        items: &[PresetItem::Preset(12)],
    },
    PresetRow {
        name: "alderlake",
        items: &[
            PresetItem::Preset(14),
            PresetItem::Flag(17),
            PresetItem::Flag(18),
            PresetItem::Flag(19),
            PresetItem::Flag(7),
            PresetItem::Flag(8),
        ],
    },
    PresetRow {
        name: "sierraforest",
        items: &[PresetItem::Preset(15)],
    },
    PresetRow {
        name: "grandridge",
        items: &[PresetItem::Preset(16)],
    },
    PresetRow {
        name: "nehalem",
        items: &[
            PresetItem::Preset(3),
            PresetItem::Flag(16),
            PresetItem::Flag(2),
        ],
    },
    PresetRow {
        name: "corei7",
        items: &[PresetItem::Preset(18)],
    },
    PresetRow {
        name: "westmere",
        items: &[PresetItem::Preset(18)],
    },
    PresetRow {
        name: "sandybridge",
        items: &[PresetItem::Preset(20), PresetItem::Flag(5)],
    },
    PresetRow {
        name: "corei7-avx",
        items: &[PresetItem::Preset(21)],
    },
    PresetRow {
        name: "ivybridge",
        items: &[PresetItem::Preset(21)],
    },
    PresetRow {
        name: "core-avx-i",
        items: &[PresetItem::Preset(23)],
    },
    PresetRow {
        name: "haswell",
        items: &[
            PresetItem::Preset(23),
            PresetItem::Flag(6),
            PresetItem::Flag(17),
            PresetItem::Flag(18),
            PresetItem::Flag(7),
            PresetItem::Flag(19),
        ],
    },
    PresetRow {
        name: "core-avx2",
        items: &[PresetItem::Preset(25)],
    },
    PresetRow {
        name: "broadwell",
        items: &[PresetItem::Preset(25)],
    },
    PresetRow {
        name: "skylake",
        items: &[PresetItem::Preset(27)],
    },
    PresetRow {
        name: "knl",
        items: &[
            PresetItem::Flag(16),
            PresetItem::Flag(13),
            PresetItem::Flag(7),
            PresetItem::Flag(17),
            PresetItem::Flag(18),
            PresetItem::Flag(19),
            PresetItem::Flag(2),
        ],
    },
    PresetRow {
        name: "knm",
        items: &[PresetItem::Preset(29)],
    },
    PresetRow {
        name: "skylake-avx512",
        items: &[
            PresetItem::Preset(27),
            PresetItem::Flag(13),
            PresetItem::Flag(10),
            PresetItem::Flag(11),
        ],
    },
    PresetRow {
        name: "skx",
        items: &[PresetItem::Preset(31)],
    },
    PresetRow {
        name: "cascadelake",
        items: &[PresetItem::Preset(31), PresetItem::Flag(14)],
    },
    PresetRow {
        name: "cooperlake",
        items: &[PresetItem::Preset(33)],
    },
    PresetRow {
        name: "cannonlake",
        items: &[
            PresetItem::Preset(28),
            PresetItem::Flag(13),
            PresetItem::Flag(10),
            PresetItem::Flag(11),
            PresetItem::Flag(12),
        ],
    },
    PresetRow {
        name: "icelake-client",
        items: &[
            PresetItem::Preset(35),
            PresetItem::Flag(9),
            PresetItem::Flag(14),
        ],
    },
    PresetRow {
        name: "icelake",
        items: &[PresetItem::Preset(36)],
    },
    PresetRow {
        name: "icelake-server",
        items: &[PresetItem::Preset(36)],
    },
    PresetRow {
        name: "tigerlake",
        items: &[PresetItem::Preset(36)],
    },
    PresetRow {
        name: "sapphirerapids",
        items: &[PresetItem::Preset(38)],
    },
    PresetRow {
        name: "raptorlake",
        items: &[PresetItem::Preset(15)],
    },
    PresetRow {
        name: "meteorlake",
        items: &[PresetItem::Preset(15)],
    },
    PresetRow {
        name: "graniterapids",
        items: &[PresetItem::Preset(40)],
    },
    PresetRow {
        name: "opteron",
        items: &[],
    },
    PresetRow {
        name: "k8",
        items: &[],
    },
    PresetRow {
        name: "athlon64",
        items: &[],
    },
    PresetRow {
        name: "athlon-fx",
        items: &[],
    },
    PresetRow {
        name: "opteron-sse3",
        items: &[PresetItem::Preset(0), PresetItem::Flag(2)],
    },
    PresetRow {
        name: "k8-sse3",
        items: &[PresetItem::Preset(0), PresetItem::Flag(2)],
    },
    PresetRow {
        name: "athlon64-sse3",
        items: &[PresetItem::Preset(0), PresetItem::Flag(2)],
    },
    PresetRow {
        name: "barcelona",
        items: &[
            PresetItem::Flag(16),
            PresetItem::Flag(19),
            PresetItem::Flag(2),
        ],
    },
    PresetRow {
        name: "amdfam10",
        items: &[PresetItem::Preset(51)],
    },
    PresetRow {
        name: "btver1",
        items: &[
            PresetItem::Preset(1),
            PresetItem::Flag(19),
            PresetItem::Flag(16),
            PresetItem::Flag(2),
        ],
    },
    PresetRow {
        name: "btver2",
        items: &[
            PresetItem::Preset(53),
            PresetItem::Flag(5),
            PresetItem::Flag(17),
        ],
    },
    PresetRow {
        name: "bdver1",
        items: &[
            PresetItem::Flag(19),
            PresetItem::Flag(16),
            PresetItem::Preset(1),
            PresetItem::Flag(2),
        ],
    },
    PresetRow {
        name: "bdver2",
        items: &[PresetItem::Preset(55), PresetItem::Flag(17)],
    },
    PresetRow {
        name: "bdver3",
        items: &[PresetItem::Preset(56)],
    },
    PresetRow {
        name: "bdver4",
        items: &[
            PresetItem::Preset(57),
            PresetItem::Flag(6),
            PresetItem::Flag(18),
        ],
    },
    PresetRow {
        name: "znver1",
        items: &[
            PresetItem::Preset(3),
            PresetItem::Flag(16),
            PresetItem::Flag(17),
            PresetItem::Flag(18),
            PresetItem::Flag(19),
            PresetItem::Flag(7),
            PresetItem::Flag(2),
        ],
    },
    PresetRow {
        name: "znver2",
        items: &[PresetItem::Preset(59)],
    },
    PresetRow {
        name: "znver3",
        items: &[PresetItem::Preset(60)],
    },
    PresetRow {
        name: "znver4",
        items: &[
            PresetItem::Preset(61),
            PresetItem::Flag(9),
            PresetItem::Flag(10),
            PresetItem::Flag(13),
            PresetItem::Flag(12),
            PresetItem::Flag(11),
        ],
    },
    PresetRow {
        name: "x86-64",
        items: &[],
    },
    PresetRow {
        name: "x86-64-v2",
        items: &[
            PresetItem::Preset(3),
            PresetItem::Flag(16),
            PresetItem::Flag(2),
        ],
    },
    PresetRow {
        name: "x86-64-v3",
        items: &[
            PresetItem::Preset(64),
            PresetItem::Flag(17),
            PresetItem::Flag(18),
            PresetItem::Flag(7),
            PresetItem::Flag(19),
            PresetItem::Flag(6),
        ],
    },
    PresetRow {
        name: "x86-64-v4",
        items: &[
            PresetItem::Preset(65),
            PresetItem::Flag(10),
            PresetItem::Flag(11),
        ],
    },
];

/// Returns the settings of x86.
#[tactic(auto, unfolding(crate::specs::X86::x86))]
pub fn x86() -> GroupRow
    ensures { group_of result ≡ x86 }
{
    GroupRow {
        name: "x86",
        settings: &SETTINGS,
        presets: &PRESETS,
    }
}
