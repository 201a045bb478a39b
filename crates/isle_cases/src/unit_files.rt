//! The files that are generated for units, as they are left by directories, one of whose calls fails.

use crate::generated::{push_answer, push_files};
use isle_case_reading::shown::{digit, push_all};
use isle_case_reading::slip::Slip;
use isle_meta::GenError;
use isle_outside::MemDir;
use isle_settings::Isa;
use isle_top::sample_tables;
use isle_unit_files::{generate, generate_isle, generate_rust};
use std::alloc::Global;

/// Which files are generated.
#[derive(Clone, Copy)]
enum Generator {
    Rust,
    Rules,
    All,
}

impl Generator {
    // Its name.
    fn name(self) -> &'static str {
        match self {
            Generator::Rust => "generate_rust",
            Generator::Rules => "generate_isle",
            Generator::All => "generate",
        }
    }
}

/// What a generator answered, and the directory that it left.
#[derive(Drop)]
struct Left {
    answer: Result<usize, GenError>,
    dir: MemDir,
}

// What a generator leaves of a directory whose calls of these numbers fail.
fn left_by(
    alloc: Global,
    generator: Generator,
    isas: &[Isa],
    fails: &[usize],
) -> Result<Left, Slip> {
    let tables = sample_tables(alloc)?;
    let mut failing = Vec::new(alloc);
    failing.extend_from_slice(fails)?;
    let mut dir = MemDir::new(alloc, Vec::new(alloc), failing, 100);
    let answer = match generator {
        Generator::Rust => generate_rust(alloc, &tables, isas, "out", &mut dir),
        Generator::Rules => generate_isle(alloc, &tables, "gen", &mut dir),
        Generator::All => generate(alloc, &tables, isas, "out", "gen", &mut dir),
    };
    Ok(Left { answer, dir })
}

// How many files are those of another directory, in name and bytes, up to the first that isn't.
fn count_same(files: &[(String, Vec<u8>)], others: &[(String, Vec<u8>)]) -> usize {
    for (place, (file, other)) in files.iter().zip(others).enumerate() {
        if file.0.as_str() != other.0.as_str() || file.1.as_slice() != other.1.as_slice() {
            return place;
        }
    }
    files.len().min(others.len())
}

// Writes what a generator answers, and how large its files are.
fn push_left(
    alloc: Global,
    lines: &mut String,
    generator: Generator,
    isas: &[Isa],
) -> Result<(), Slip> {
    let left = left_by(alloc, generator, isas, &[])?;
    push_answer(lines, generator.name(), &left.answer)?;
    push_files(alloc, lines, &left.dir)
}

// Writes what is left of each directory one of whose calls fails, and how many of its files hold their texts.
fn push_failing(alloc: Global, lines: &mut String) -> Result<(), Slip> {
    let whole = left_by(alloc, Generator::All, &[Isa::Pulley64], &[])?;
    for call in 1..10 {
        let left = left_by(alloc, Generator::All, &[Isa::Pulley64], &[call])?;
        push_answer(lines, "generate", &left.answer)?;
        let same = count_same(left.dir.files(), whole.dir.files());
        push_all(lines, &["that hold their texts: ", digit(same), "\n"])?;
    }
    Ok(())
}

/// Writes what the generators for units answer and leave.
pub fn push_unit_files(alloc: Global, lines: &mut String) -> Result<(), Slip> {
    push_left(alloc, lines, Generator::All, &[Isa::Pulley64])?;
    push_left(alloc, lines, Generator::All, &[Isa::X86])?;
    push_left(alloc, lines, Generator::Rust, &[Isa::X86])?;
    push_left(alloc, lines, Generator::Rust, &[Isa::X86, Isa::Pulley32])?;
    push_left(alloc, lines, Generator::Rules, &[])?;
    push_failing(alloc, lines)
}
