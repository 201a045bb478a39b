//! The stored run, over a directory and an output that fail at each of their calls in turn.

use isle_case_reading::shown::push_all;
use isle_case_reading::slip::Slip;
use isle_outside::{MemDir, MemSink};
use isle_top::{run_words, sample_tables};
use std::alloc::Global;

/// The file of the stored run.
const STORED: &str = "(decl X (u8) u8) (rule (X 1) 2)";

/// The calls of a directory that gives its bytes one by one: the file is found, each byte read, and its end met.
const CALLS: usize = 33;

/// The most bytes that the output takes at once.
const PIECE: usize = 10;

// A directory with that file, which gives its bytes one by one; its calls of these numbers fail.
fn stored(alloc: Global, fails: &[usize]) -> Result<MemDir, Slip> {
    let mut bytes = Vec::new(alloc);
    bytes.extend_from_slice(STORED.as_bytes())?;
    let mut files = Vec::new(alloc);
    files.push((String::from_str(alloc, "first.isle")?, bytes))?;
    let mut failing = Vec::new(alloc);
    failing.extend_from_slice(fails)?;
    Ok(MemDir::new(alloc, files, failing, 1))
}

// An output whose calls of these numbers fail.
fn output(alloc: Global, fails: &[usize]) -> Result<MemSink, Slip> {
    let mut failing = Vec::new(alloc);
    failing.extend_from_slice(fails)?;
    Ok(MemSink::new(alloc, 1 << 20, failing, PIECE)?)
}

// The status of the stored run.
fn status(alloc: Global, dir: &mut MemDir, out: &mut MemSink) -> Result<u8, Slip> {
    let tables = sample_tables(alloc)?;
    let words: Vec<String> = Vec::new(alloc);
    let mut err = output(alloc, &[])?;
    Ok(run_words(alloc, words.as_slice(), &tables, dir, out, &mut err).0)
}

// Writes the status where a call of the directory fails, its count of faults, and how many bytes are written.
fn push_failing_call(alloc: Global, lines: &mut String, call: usize) -> Result<(), Slip> {
    let mut dir = stored(alloc, &[call])?;
    let mut out = output(alloc, &[])?;
    let status = status(alloc, &mut dir, &mut out)?;
    let faults = dir.faults();
    let empty = if out.bytes().is_empty() {
        "nothing"
    } else {
        "a text"
    };
    let line = format!(in alloc; "call {call}: status {status}, faults {faults}, {empty}\n")?;
    lines.push_str(line.as_str())?;
    Ok(())
}

// Writes the statuses of two runs over one directory, whose first call fails.
fn push_second_run(alloc: Global, lines: &mut String) -> Result<(), Slip> {
    let mut dir = stored(alloc, &[1])?;
    let mut out = output(alloc, &[])?;
    let first = status(alloc, &mut dir, &mut out)?;
    let second = status(alloc, &mut dir, &mut out)?;
    let line = format!(in alloc; "first run: status {first}, second run: status {second}\n")?;
    lines.push_str(line.as_str())?;
    Ok(())
}

// Whether an output, whose call after so many fails, keeps just the pieces before it.
fn keeps_pieces(alloc: Global, whole: &[u8], pieces: usize) -> Result<bool, Slip> {
    let mut dir = stored(alloc, &[])?;
    let mut out = output(alloc, &[pieces.saturating_add(1)])?;
    let status = status(alloc, &mut dir, &mut out)?;
    let taken = out.bytes();
    let length = pieces.saturating_mul(PIECE);
    Ok(status == 11 && out.faults() == 1 && taken.len() == length && whole.starts_with(taken))
}

// Writes whether an output keeps what it took before the call that fails, for each call in turn.
fn push_failing_output(alloc: Global, lines: &mut String) -> Result<(), Slip> {
    let mut dir = stored(alloc, &[])?;
    let mut out = output(alloc, &[])?;
    if status(alloc, &mut dir, &mut out)? != 0 {
        return Err(Slip::Status);
    }
    for (pieces, _) in out.bytes().chunks(PIECE).enumerate() {
        if !keeps_pieces(alloc, out.bytes(), pieces)? {
            return Err(Slip::Out);
        }
    }
    push_all(
        lines,
        &["each call of out fails in turn: what was taken before is kept\n"],
    )?;
    Ok(())
}

/// Writes what the stored run leaves where the directory or the output fails at each of their calls in turn.
pub fn push_failing(alloc: Global, lines: &mut String) -> Result<(), Slip> {
    for call in 1..=CALLS {
        push_failing_call(alloc, lines, call)?;
    }
    push_failing_call(alloc, lines, CALLS + 1)?;
    push_second_run(alloc, lines)?;
    push_failing_output(alloc, lines)
}
