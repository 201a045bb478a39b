//! The text of a target.

ghost use Rattle.std.specs.Prelude.{◌≡◌, ◌++◌, ◌<◌, List, ℕ, All, IfOk, OnOk, length, map};
ghost use Rattle.std.specs.Prelude.{string_bytes};
ghost use Rattle.std.specs.List.{flat_map};
ghost use denote.Ref.{Bor};
ghost use Rattle.isle_settings.specs.Groups.{settings_of};
ghost use Rattle.isle_settings.specs.PresetClosure.{AreReached, IsWellFormed};
ghost use Rattle.isle_settings.specs.TargetLines.{ArePresetLines, IsGroupText, line_end, name_at};
ghost use Rattle.isle_settings.specs.TargetLines.{preset_line, setting_line, spaced, spaced_name};
ghost use Rattle.isle_settings.specs.TargetLines.{truth};

use crate::building::settings_of;
use crate::group::{Preset, Setting, SettingGroup, SettingKind};
use crate::isa::Isa;
use crate::presets::preset_flags;
use isle_core::{OutOfMemory, Text};
use std::alloc::{AllocError, Global};

// Appends a blank and a word.
fn push_spaced(text: &mut String, word: &str) -> Result<(), AllocError>
    ensures { OnOk result (string_bytes text.new ≡ string_bytes text.old ++ spaced word.now) }
{
    text.push_str(" ")?;
    text.push_str(word)
}

// Appends values, each behind a blank.
fn push_values(text: &mut String, values: &[Text]) -> Result<(), AllocError>
    ensures { OnOk result
        (string_bytes text.new ≡ string_bytes text.old ++ flat_map spaced values.now) }
{
    for value in values {
        push_spaced(text, value.as_str())?;
    }
    Ok(())
}

// A truth.
fn truth(value: bool) -> &'static str
    ensures { result.now ≡ truth value }
{
    if value { "true" } else { "false" }
}

// Appends the line of a setting.
fn push_setting(text: &mut String, setting: &Setting) -> Result<(), AllocError>
    ensures { OnOk result
        (string_bytes text.new ≡ string_bytes text.old ++ setting_line setting.now) }
{
    match &setting.kind {
        SettingKind::Bool(value) => {
            text.push_str("flag ")?;
            text.push_str(setting.name.as_str())?;
            push_spaced(text, truth(*value))?;
        }
        SettingKind::Enum(values) => {
            text.push_str("enum ")?;
            text.push_str(setting.name.as_str())?;
            push_values(text, values.as_slice())?;
        }
    }
    text.push_str("\n")
}

// Appends the lines of settings.
fn push_settings(text: &mut String, settings: &[Setting]) -> Result<(), AllocError>
    ensures { OnOk result
        (string_bytes text.new ≡ string_bytes text.old ++ flat_map setting_line settings.now) }
{
    for setting in settings {
        push_setting(text, setting)?;
    }
    Ok(())
}

// The name of the setting at a place.
fn name_at(settings: &[Setting], place: usize) -> &str
    ensures { result.now ≡ name_at settings.now place }
{
    match settings.get(place) {
        Some(setting) => setting.name.as_str(),
        None => "",
    }
}

// Appends the names of flags, each behind a blank.
fn push_flags(text: &mut String, settings: &[Setting], flags: &[usize]) -> Result<(), AllocError>
    ensures { OnOk result
        (string_bytes text.new
        ≡ string_bytes text.old ++ flat_map (spaced_name settings.now) flags.now) }
{
    for flag in flags {
        push_spaced(text, name_at(settings, *flag))?;
    }
    Ok(())
}

// Appends the line of a preset that reaches these flags.
fn push_preset(
    text: &mut String,
    settings: &[Setting],
    preset: &Preset,
    flags: &[usize],
) -> Result<(), AllocError>
    ensures { OnOk result
        (string_bytes text.new
        ≡ string_bytes text.old ++ preset_line settings.now preset.now flags.now) }
{
    text.push_str("preset ")?;
    text.push_str(preset.name.as_str())?;
    push_flags(text, settings, flags)?;
    text.push_str("\n")
}

// Appends the lines of a group's presets.
fn push_presets(alloc: Global, text: &mut String, group: &SettingGroup) -> Result<(), OutOfMemory>
    requires { IsWellFormed group.now }
    ensures { OnOk result ((lines : List ℕ)
        × (string_bytes text.new ≡ string_bytes text.old ++ lines)
        × ArePresetLines group.now 0 group.now.presets lines) }
{
    let settings = group.settings.as_slice();
    for (place, preset) in group.presets.as_slice().iter().enumerate() {
        let flags = preset_flags(alloc, group, place)?;
        push_preset(text, settings, preset, flags.as_slice())?;
    }
    Ok(())
}

// The text of a group.
fn group_text(alloc: Global, group: &SettingGroup) -> Result<String, OutOfMemory>
    requires { IsWellFormed group.now }
    ensures { IfOk result (λ text. IsGroupText group.now (string_bytes text)) }
{
    let mut text = String::from_str(alloc, group.name.as_str())?;
    text.push_str("\n")?;
    push_settings(&mut text, group.settings.as_slice())?;
    push_presets(alloc, &mut text, group)?;
    Ok(text)
}

/// Returns the text of a target: a line of its group's name, a line for each setting, and a line for each preset with
/// the names of the flags that it reaches. The only error is want of memory.
pub fn isa_text(alloc: Global, isa: Isa) -> Result<String, OutOfMemory>
    ensures { IfOk result (λ text. IsGroupText (settings_of isa) (string_bytes text)) }
{
    let group = settings_of(alloc, isa)?;
    group_text(alloc, &group)
}
