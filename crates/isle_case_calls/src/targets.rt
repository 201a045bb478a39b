//! Targets with their settings, and units with their files, as their calls tell them.

use isle_case_reading::shown::push_all;
use isle_case_reading::slip::Slip;
use isle_settings::{Isa, isa_from_arch, isa_text};
use isle_units::{shared_isle_lower_paths, units_text};
use std::alloc::Global;

/// Words of architectures, and words that are none.
const ARCHES: [&str; 14] = [
    "aarch64",
    "s390x",
    "x86_64",
    "i386",
    "i586",
    "i686",
    "riscv64",
    "riscv64gc",
    "riscv64imac",
    "pulley32",
    "pulley64",
    "mips",
    "x86",
    "",
];

// Writes the settings of a target, which its name names.
fn push_target(alloc: Global, lines: &mut String, isa: Isa) -> Result<(), Slip> {
    if Isa::from_name(isa.name()) != Some(isa) {
        return Err(Slip::Lines);
    }
    let text = isa_text(alloc, isa)?;
    push_all(lines, &["target ", isa.name(), "\n", text.as_str()])?;
    Ok(())
}

// Writes the target of an architecture's word, or why there is none.
fn push_arch(alloc: Global, lines: &mut String, arch: &str) -> Result<(), Slip> {
    push_all(lines, &["arch ", arch, ": "])?;
    let told = match isa_from_arch(alloc, arch) {
        Ok(isa) => format!(in alloc; "{isa}\n")?,
        Err(error) => format!(in alloc; "{error}\n")?,
    };
    lines.push_str(told.as_str())?;
    Ok(())
}

/// Writes what each target has, which target each architecture is, the units, and the shared paths of lowering.
pub fn push_targets(alloc: Global, lines: &mut String) -> Result<(), Slip> {
    for isa in Isa::all() {
        push_target(alloc, lines, *isa)?;
    }
    for arch in ARCHES {
        push_arch(alloc, lines, arch)?;
    }
    let units = units_text(alloc)?;
    lines.push_str(units.as_str())?;
    for path in &shared_isle_lower_paths(alloc, "c")? {
        push_all(lines, &["shared ", path.as_str(), "\n"])?;
    }
    Ok(())
}
