//! The flags that a preset reaches.

ghost use Rattle.std.specs.Prelude.{◌≡◌, ◌<◌, ◌≤◌, ◌↔◌, ◌⊎◌, ℕ, IfOk, length};
ghost use Rattle.std.specs.List.{Contains};
ghost use Rattle.isle_settings.specs.Marks.{HasMark, IsMarked, IsPending, marked_from, with_flags};
ghost use Rattle.isle_settings.specs.Marks.{with_presets};
ghost use Rattle.isle_settings.specs.PresetClosure.{AreReached, HasItem, IsLawfulItem};
ghost use Rattle.isle_settings.specs.PresetClosure.{IsWellFormed, Reaches};
ghost use Rattle.isle_settings.specs.declared.group.PresetItem.{PresetItem as Item};

use crate::group::{Preset, PresetItem, SettingGroup};
use isle_core::OutOfMemory;
use std::alloc::{AllocError, Global};

// Marks what items enable.
fn mark(items: &[PresetItem], presets: &mut [bool], flags: &mut [bool])
    requires { (it : Item) → Contains items.now it
        → HasMark (length flags.old) (length presets.old) it }
    ensures presets { presets.new ≡ with_presets items.now presets.old }
    ensures flags { flags.new ≡ with_flags items.now flags.old }
    ensures preset_count { length presets.new ≡ length presets.old }
    ensures flag_count { length flags.new ≡ length flags.old }
{
    for item in items {
        match item {
            PresetItem::Flag(flag) => flags[*flag] = true,
            PresetItem::Preset(named) => presets[*named] = true,
        }
    }
}

// Marks what marked presets enable, the later ones first, so that each preset is marked before it is looked at.
fn mark_all(all: &[Preset], presets: &mut [bool], flags: &mut [bool])
    requires there { length presets.old ≤ length all.now }
    requires lawful { (place : ℕ) (it : Item) → HasItem all.now place it
        → IsLawfulItem (length flags.old) place it }
    ensures { (flag : ℕ) → IsMarked flags.new flag
        ↔ (IsMarked flags.old flag ⊎ IsPending all.now presets.old (length presets.old) flag) }
{
    for place in (0..presets.len()).rev() {
        if presets[place] {
            mark(all[place].items.as_slice(), presets, flags);
        }
    }
}

// The marks of the flags that a preset reaches.
fn reached(alloc: Global, group: &SettingGroup, preset: usize) -> Result<Vec<bool>, AllocError>
    requires there { preset < length group.now.presets }
    requires lawful { IsWellFormed group.now }
    ensures { IfOk result (λ marks. (flag : ℕ) → IsMarked marks.items flag
        ↔ Reaches group.now.presets preset flag) }
{
    let mut flags = vec![in alloc; false; group.settings.as_slice().len()]?;
    let mut presets = vec![in alloc; false; group.presets.as_slice().len()]?;
    presets[preset] = true;
    mark_all(group.presets.as_slice(), &mut presets, &mut flags);
    Ok(flags)
}

// The marked places, ascending.
fn marked(alloc: Global, marks: &[bool]) -> Result<Vec<usize>, OutOfMemory>
    ensures { IfOk result (λ places. places.items ≡ marked_from 0 marks.now) }
{
    let mut places = Vec::new(alloc);
    for (place, mark) in marks.iter().enumerate() {
        if *mark {
            places.push(place)?;
        }
    }
    Ok(places)
}

/// Returns the places of the flags that the preset at a place reaches, ascending, each once: its own, and those that
/// the earlier presets reach which it names. The preset is there, and each item of the group is one of its settings or
/// an earlier preset, as in the groups that `settings_of` gives. The only error is want of memory.
pub fn preset_flags(
    alloc: Global,
    group: &SettingGroup,
    preset: usize,
) -> Result<Vec<usize>, OutOfMemory>
    requires there { preset < length group.now.presets }
    requires lawful { IsWellFormed group.now }
    ensures { IfOk result (λ flags. AreReached group.now preset flags.items) }
{
    let marks = reached(alloc, group, preset)?;
    marked(alloc, marks.as_slice())
}
