//! The rows of the tables of settings.

use crate::group::PresetItem;

/// A setting: a flag and what it is where nothing else is said, or a choice among values.
#[derive(Clone, Copy)]
pub enum SettingRow {
    Flag(&'static str, bool),
    Choice(&'static str, &'static [&'static str]),
}

/// A preset, and what it enables.
#[derive(Clone, Copy)]
pub struct PresetRow {
    pub name: &'static str,
    pub items: &'static [PresetItem],
}

/// The settings of a target, and its presets.
#[derive(Clone, Copy)]
pub struct GroupRow {
    pub name: &'static str,
    pub settings: &'static [SettingRow],
    pub presets: &'static [PresetRow],
}
