//! Targets with their settings and presets, and units: which files are compiled together, and the text built of them.

pub use isle_build::{BuildError, build_unit, unit_files};
pub use isle_settings::{
    Isa, IsaError, Preset, PresetItem, Setting, SettingGroup, SettingKind, isa_from_arch,
    preset_flags, settings_of,
};
pub use isle_unit_files::{generate, generate_isle, generate_rust};
pub use isle_units::{
    IsleCompilation, IsleCompilations, PathsError, get_isle_compilations, shared_isle_lower_paths,
};
