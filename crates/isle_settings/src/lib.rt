//! Targets, and their settings and presets.
#![tactic(auto)]

mod arm64;
mod building;
mod group;
mod isa;
mod isa_error;
mod presets;
mod pulley;
mod riscv64;
mod rows;
mod s390x;
mod text;
mod x86;

pub use building::settings_of;
pub use group::{Preset, PresetItem, Setting, SettingGroup, SettingKind};
pub use isa::Isa;
pub use isa_error::{IsaError, isa_from_arch};
pub use presets::preset_flags;
pub use text::isa_text;
