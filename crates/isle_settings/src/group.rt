//! Groups of settings.

use isle_core::{List, Text};

/// What a setting may be.
#[derive(Debug, Drop)]
pub enum SettingKind {
    /// True or false, and which of them where nothing else is said.
    Bool(bool),
    /// One of these values.
    Enum(List<Text>),
}

/// A setting.
#[derive(Debug, Drop)]
pub struct Setting {
    pub name: Text,
    pub kind: SettingKind,
}

/// What a preset enables.
#[derive(Clone, Copy, Debug, PartialEq, Eq)]
pub enum PresetItem {
    /// The setting at this place.
    Flag(usize),
    /// All that the preset at this place enables, which stands before this one.
    Preset(usize),
}

/// Settings that are enabled together.
#[derive(Debug, Drop)]
pub struct Preset {
    pub name: Text,
    pub items: List<PresetItem>,
}

/// The settings of a target, and its presets.
#[derive(Debug, Drop)]
pub struct SettingGroup {
    pub name: Text,
    pub settings: List<Setting>,
    pub presets: List<Preset>,
}
