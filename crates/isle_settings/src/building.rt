//! Groups made of the rows of their tables.

ghost use Rattle.std.specs.Prelude.{◌≡◌, ◌++◌, IfOk, map};
ghost use Rattle.isle_settings.specs.Groups.{settings_of};
ghost use Rattle.isle_settings.specs.PresetClosure.{IsWellFormed};
ghost use Rattle.isle_settings.specs.Rows.{group_of, preset_of, setting_of, texts_of};

use crate::arm64::arm64;
use crate::group::{Preset, PresetItem, Setting, SettingGroup, SettingKind};
use crate::isa::Isa;
use crate::pulley::pulley;
use crate::riscv64::riscv64;
use crate::rows::{GroupRow, PresetRow, SettingRow};
use crate::s390x::s390x;
use crate::x86::x86;
use isle_core::{List, OutOfMemory, Text};
use std::alloc::{AllocError, Global};

// Copies of texts.
fn texts_of(alloc: Global, names: &[&'static str]) -> Result<List<Text>, AllocError>
    ensures { IfOk result (λ texts. texts ≡ texts_of names.now) }
{
    let mut texts = Vec::new(alloc);
    for name in names {
        texts.push(Text::copied(alloc, name)?)?;
    }
    Ok(List::new(texts))
}

// The setting of a row.
fn setting_of(alloc: Global, row: SettingRow) -> Result<Setting, AllocError>
    ensures { IfOk result (λ setting. setting ≡ setting_of row) }
{
    match row {
        SettingRow::Flag(name, value) => Ok(Setting {
            name: Text::copied(alloc, name)?,
            kind: SettingKind::Bool(value),
        }),
        SettingRow::Choice(name, values) => Ok(Setting {
            name: Text::copied(alloc, name)?,
            kind: SettingKind::Enum(texts_of(alloc, values)?),
        }),
    }
}

// The settings of rows, in order.
fn settings_in(alloc: Global, rows: &[SettingRow]) -> Result<List<Setting>, AllocError>
    ensures { IfOk result (λ settings. settings ≡ map setting_of rows.now) }
{
    let mut settings = Vec::new(alloc);
    for row in rows {
        settings.push(setting_of(alloc, *row)?)?;
    }
    Ok(List::new(settings))
}

// The preset of a row.
fn preset_of(alloc: Global, row: PresetRow) -> Result<Preset, AllocError>
    ensures { IfOk result (λ preset. preset ≡ preset_of row) }
{
    Ok(Preset {
        name: Text::copied(alloc, row.name)?,
        items: List::new(Vec::from_slice(alloc, row.items)?),
    })
}

// The presets of rows, in order.
fn presets_in(alloc: Global, rows: &[PresetRow]) -> Result<List<Preset>, AllocError>
    ensures { IfOk result (λ presets. presets ≡ map preset_of rows.now) }
{
    let mut presets = Vec::new(alloc);
    for row in rows {
        presets.push(preset_of(alloc, *row)?)?;
    }
    Ok(List::new(presets))
}

// The group of a table.
fn group_of(alloc: Global, row: GroupRow) -> Result<SettingGroup, OutOfMemory>
    ensures { IfOk result (λ group. group ≡ group_of row) }
{
    Ok(SettingGroup {
        name: Text::copied(alloc, row.name)?,
        settings: settings_in(alloc, row.settings)?,
        presets: presets_in(alloc, row.presets)?,
    })
}

/// Returns the settings and presets of a target, which are well formed. The only error is want of memory.
pub fn settings_of(alloc: Global, isa: Isa) -> Result<SettingGroup, OutOfMemory>
    ensures table { IfOk result (λ group. group ≡ settings_of isa) }
    ensures lawful { IfOk result (λ group. IsWellFormed group) }
{
    match isa {
        Isa::X86 => group_of(alloc, x86()),
        Isa::Arm64 => group_of(alloc, arm64()),
        Isa::S390x => group_of(alloc, s390x()),
        Isa::Riscv64 => group_of(alloc, riscv64()),
        Isa::Pulley32 | Isa::Pulley64 => group_of(alloc, pulley()),
    }
}
