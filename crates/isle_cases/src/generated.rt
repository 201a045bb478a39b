//! Files that are generated, and a formatter's text.

ghost use Rattle.std.specs.Prelude.{◌≡◌, ◌<◌, OnOk};

use isle_case_reading::shown::{digit, push_all};
use isle_case_reading::slip::Slip;
use isle_meta::{Formatter, GenError, Language};
use isle_outside::MemDir;
use isle_prelude_files::generate;
use isle_pulley::pulley::{generate_isle, generate_raw_inst_display};
use isle_top::sample_tables;
use std::alloc::Global;

/// Writes what a generator answers, after its name.
pub fn push_answer(
    lines: &mut String,
    generator: &str,
    answer: &Result<usize, GenError>,
) -> Result<(), Slip> {
    let (word, number) = match answer {
        Ok(count) => ("files ", *count),
        Err(GenError::Dir { written }) => ("dir after ", *written),
        Err(GenError::Memory { written }) => ("memory after ", *written),
        Err(GenError::Unsupported(_)) => ("unsupported ", 0),
    };
    lines.push_str(generator)?;
    push_all(lines, &[": ", word, digit(number), "\n"])?;
    Ok(())
}

/// Writes the names of files with how many bytes they have.
pub fn push_files(alloc: Global, lines: &mut String, dir: &MemDir) -> Result<(), Slip> {
    for file in dir.files() {
        let length = file.1.len();
        let shown = format!(in alloc; "{length}")?;
        push_all(lines, &[file.0.as_str(), " ", shown.as_str(), "\n"])?;
    }
    Ok(())
}

// Writes what generating the preludes into a directory answers whose calls of these numbers fail, and what it leaves.
fn push_generated(alloc: Global, lines: &mut String, fails: &[usize]) -> Result<(), Slip> {
    let tables = sample_tables(alloc)?;
    let mut failing = Vec::new(alloc);
    failing.extend_from_slice(fails)?;
    let mut dir = MemDir::new(alloc, Vec::new(alloc), failing, 100);
    let answer = generate(
        alloc,
        &tables,
        "numerics.isle",
        "numerics.rs",
        "opt.isle",
        "lower.isle",
        "gen",
        &mut dir,
    );
    push_answer(lines, "preludes", &answer)?;
    push_files(alloc, lines, &dir)
}

// Writes what generating the rules of no operations answers into a directory whose calls of these numbers fail, and what
// it leaves.
fn push_no_rules(alloc: Global, lines: &mut String, fails: &[usize]) -> Result<(), Slip> {
    let tables = sample_tables(alloc)?;
    let mut failing = Vec::new(alloc);
    failing.extend_from_slice(fails)?;
    let mut dir = MemDir::new(alloc, Vec::new(alloc), failing, 100);
    let (ops, extended) = (tables.ops.as_slice(), tables.extended_ops.as_slice());
    let answer = generate_isle(alloc, "rules.isle", "gen", ops, extended, &mut dir);
    push_answer(lines, "pulley", &answer)?;
    push_files(alloc, lines, &dir)
}

// Writes a text with the item behind it that shows no operation.
fn push_shown(alloc: Global, lines: &mut String) -> Result<(), Slip> {
    let tables = sample_tables(alloc)?;
    let mut text = String::from_str(alloc, "x\n")?;
    let (ops, extended) = (tables.ops.as_slice(), tables.extended_ops.as_slice());
    if generate_raw_inst_display(alloc, &mut text, ops, extended).is_err() {
        return Err(Slip::Files);
    }
    lines.push_str(text.as_str())?;
    Ok(())
}

// A block of a line, an empty line, and a line that is set in.
fn format(formatter: &mut Formatter) -> Result<(), Slip> {
    formatter.comment("a")?;
    formatter.open_block("b")?;
    formatter.line("c")?;
    formatter.close_block()?;
    formatter.empty_line()?;
    formatter.indent_push()?;
    formatter.line("d")?;
    formatter.indent_pop()?;
    Ok(())
}

// Writes the text of a formatter, and the file that it is written to.
fn push_formatted(alloc: Global, lines: &mut String, language: Language) -> Result<(), Slip> {
    let mut formatter = Formatter::new(alloc, language);
    format(&mut formatter)?;
    let mut dir = MemDir::new(alloc, Vec::new(alloc), Vec::new(alloc), 100);
    if formatter.write(alloc, "x", "", &mut dir).is_err() {
        return Err(Slip::Files);
    }
    lines.push_str(formatter.text())?;
    push_files(alloc, lines, &dir)
}

/// Writes what generated files are, of directories that fail and of one that doesn't, and what a formatter's text is.
pub fn push_generators(alloc: Global, lines: &mut String) -> Result<(), Slip> {
    push_generated(alloc, lines, &[])?;
    push_generated(alloc, lines, &[3])?;
    push_no_rules(alloc, lines, &[])?;
    push_no_rules(alloc, lines, &[1])?;
    push_shown(alloc, lines)?;
    push_formatted(alloc, lines, Language::Isle)?;
    push_formatted(alloc, lines, Language::Rust)
}
