//! A case's run, and what it leaves against what the case wants.

ghost use Rattle.std.specs.Prelude.{◌<◌, IfOk};

use isle_case_reading::case::{Case, Entry, Key};
use isle_case_reading::parts::{has_parts, holds_parts};
use isle_case_reading::slip::Slip;
use isle_case_reading::spelling::{number, spelt, text_spelt, words_of};
use isle_case_reading::tables::tables_of;
use isle_case_reading::wanted::{Shelf, entry, wanted_out};
use isle_meta::Tables;
use isle_outside::{MemDir, MemSink};
use isle_top::{run_words, sample_tables};
use std::alloc::{AllocError, Global};

/// The most bytes that the directory gives at once, if a case says nothing.
const DIR_PIECE: usize = 1 << 20;

/// The most bytes that a sink takes at once, if a case says nothing.
const SINK_PIECE: usize = 10;

/// The room of a sink, if a case says nothing.
const ROOM: usize = 1 << 20;

/// What a run left.
#[derive(Drop)]
pub struct Left {
    pub status: u8,
    pub dir: MemDir,
    pub out: MemSink,
    pub err: MemSink,
}

impl Left {
    /// Tells the status and the text on `err`, in words.
    pub fn told(&self, alloc: Global) -> Result<String, AllocError> {
        let status = self.status;
        let err = String::from_utf8_lossy(alloc, self.err.bytes())?;
        format!(in alloc; " (status {status}, err {err:?})")
    }
}

// The lines of the case and of the head that have this key and name; an empty name is any.
fn entries<'c>(
    alloc: Global,
    case: &'c Case,
    head: &'c Case,
    key: Key,
    name: &str,
) -> Result<Vec<&'c Entry>, Slip> {
    let mut found = Vec::new(alloc);
    push_entries(&mut found, case, key, name)?;
    push_entries(&mut found, head, key, name)?;
    Ok(found)
}

// Appends the lines of one case that have this key and name.
fn push_entries<'c>(
    found: &mut Vec<&'c Entry>,
    case: &'c Case,
    key: Key,
    name: &str,
) -> Result<(), Slip> {
    for entry in &case.entries {
        if entry.key == key && (name.is_empty() || entry.name.as_str() == name) {
            found.push(entry)?;
        }
    }
    Ok(())
}

// The files of these lines.
fn files_of(alloc: Global, entries: &[&Entry]) -> Result<Vec<(String, Vec<u8>)>, Slip> {
    let mut files = Vec::new(alloc);
    for entry in entries {
        let name = text_spelt(alloc, entry.name.as_str())?;
        files.push((name, spelt(alloc, entry.text.as_str())?))?;
    }
    Ok(files)
}

// The files of the case: those that it gives, and after them those that words write.
fn files_before(alloc: Global, case: &Case, head: &Case) -> Result<Vec<(String, Vec<u8>)>, Slip> {
    let mut files = files_of(alloc, entries(alloc, case, head, Key::File, "")?.as_slice())?;
    for entry in entries(alloc, case, head, Key::Made, "")? {
        let name = text_spelt(alloc, entry.name.as_str())?;
        files.push((name, made(alloc, case, head, entry.text.as_str())?))?;
    }
    Ok(files)
}

// What words write that read no file.
fn made(alloc: Global, case: &Case, head: &Case, line: &str) -> Result<Vec<u8>, Slip> {
    let words = words_of(alloc, line)?;
    let tables = tables(alloc, case, head)?;
    let dir = MemDir::new(alloc, Vec::new(alloc), Vec::new(alloc), DIR_PIECE);
    let out = sink(alloc, case, head, "out")?;
    let err = sink(alloc, case, head, "err")?;
    let left = run_over(alloc, words.as_slice(), &tables, dir, out, err);
    let mut bytes = Vec::new(alloc);
    bytes.extend_from_slice(left.out.bytes())?;
    Ok(bytes)
}

// The tables of the case; those of the program, if it says nothing.
fn tables(alloc: Global, case: &Case, head: &Case) -> Result<Tables, Slip> {
    match entry(case, head, Key::Tables, "")? {
        Some(entry) => tables_of(alloc, text_spelt(alloc, entry.text.as_str())?.as_str()),
        None => match sample_tables(alloc) {
            Ok(tables) => Ok(tables),
            Err(_) => Err(Slip::Memory),
        },
    }
}

// The files that the case wants afterwards: those listed, or else those of the case.
fn files_after(alloc: Global, case: &Case, head: &Case) -> Result<Vec<(String, Vec<u8>)>, Slip> {
    let listed = entries(alloc, case, head, Key::After, "")?;
    if listed.is_empty() {
        return files_before(alloc, case, head);
    }
    files_of(alloc, listed.as_slice())
}

// The numbers of the calls of an object that fail.
fn fails(alloc: Global, case: &Case, head: &Case, object: &str) -> Result<Vec<usize>, Slip> {
    let mut fails = Vec::new(alloc);
    for entry in entries(alloc, case, head, Key::Fails, object)? {
        for word in entry.text.as_str().split_whitespace() {
            fails.push(number(word)?)?;
        }
    }
    Ok(fails)
}

// A limit of an object, the case's own before the head's.
fn limit(case: &Case, head: &Case, key: Key, object: &str, usual: usize) -> Result<usize, Slip> {
    match entry(case, head, key, object)? {
        Some(entry) => number(entry.text.as_str()),
        None => Ok(usual),
    }
}

// A piece of an object: at least one byte.
fn piece(case: &Case, head: &Case, object: &str, usual: usize) -> Result<usize, Slip>
    ensures { IfOk result (λ piece. 0 < piece) }
{
    let piece = limit(case, head, Key::Piece, object, usual)?;
    if piece == 0 {
        Err(Slip::Number)
    } else {
        Ok(piece)
    }
}

// An empty sink of a case.
fn sink(alloc: Global, case: &Case, head: &Case, object: &str) -> Result<MemSink, Slip> {
    let room = limit(case, head, Key::Room, object, ROOM)?;
    let fails = fails(alloc, case, head, object)?;
    let piece = piece(case, head, object, SINK_PIECE)?;
    match MemSink::new(alloc, room, fails, piece) {
        Ok(sink) => Ok(sink),
        Err(_) => Err(Slip::Memory),
    }
}

// The directory of a case.
fn dir(alloc: Global, case: &Case, head: &Case) -> Result<MemDir, Slip> {
    let files = files_before(alloc, case, head)?;
    let fails = fails(alloc, case, head, "dir")?;
    let piece = piece(case, head, "dir", DIR_PIECE)?;
    Ok(MemDir::new(alloc, files, fails, piece))
}

/// Returns the words of a case.
pub fn words(alloc: Global, case: &Case, head: &Case) -> Result<Vec<String>, Slip> {
    match entry(case, head, Key::Words, "")? {
        Some(entry) => words_of(alloc, entry.text.as_str()),
        None => Err(Slip::NoWords),
    }
}

// Runs the words over a directory and two sinks.
fn run_over(
    alloc: Global,
    words: &[String],
    tables: &Tables,
    mut dir: MemDir,
    mut out: MemSink,
    mut err: MemSink,
) -> Left {
    let exit = run_words(alloc, words, tables, &mut dir, &mut out, &mut err);
    Left {
        status: exit.0,
        dir,
        out,
        err,
    }
}

/// Runs the words of a case.
pub fn run(alloc: Global, case: &Case, head: &Case, words: &[String]) -> Result<Left, Slip> {
    if let Some(slip) = head.slip.or(case.slip) {
        return Err(slip);
    }
    let tables = tables(alloc, case, head)?;
    let dir = dir(alloc, case, head)?;
    let out = sink(alloc, case, head, "out")?;
    let err = sink(alloc, case, head, "err")?;
    Ok(run_over(alloc, words, &tables, dir, out, err))
}

// The status that a case wants.
fn status(case: &Case, head: &Case) -> Result<usize, Slip> {
    match entry(case, head, Key::Status, "")? {
        Some(entry) => number(entry.text.as_str()),
        None => Ok(0),
    }
}

// Whether `out` has what the case wants; at another status than 0 it is empty, if nothing is said.
fn has_out(
    alloc: Global,
    case: &Case,
    head: &Case,
    words: &[String],
    shelf: &Shelf,
    left: &Left,
) -> Result<bool, Slip> {
    if has_parts(case) {
        return holds_parts(alloc, case, left.out.bytes());
    }
    match wanted_out(alloc, case, head, words, shelf)? {
        Some(wanted) => Ok(wanted.is_met(alloc, left.out.bytes())?),
        None if left.status == 0 => Err(Slip::NoOut),
        None => Ok(left.out.bytes().is_empty()),
    }
}

// Whether `err` has what the case wants: nothing, if nothing is said.
fn has_err(alloc: Global, case: &Case, head: &Case, left: &Left) -> Result<bool, Slip> {
    match entry(case, head, Key::Err, "")? {
        Some(entry) => Ok(spelt(alloc, entry.text.as_str())?.as_slice() == left.err.bytes()),
        None => Ok(left.err.bytes().is_empty()),
    }
}

// Whether two lists of files are one.
fn are_same(files: &[(String, Vec<u8>)], others: &[(String, Vec<u8>)]) -> bool {
    if files.len() != others.len() {
        return false;
    }
    for (file, other) in files.iter().zip(others) {
        if file.0.as_str() != other.0.as_str() || file.1.as_slice() != other.1.as_slice() {
            return false;
        }
    }
    true
}

/// Holds what a run left against what its case wants.
pub fn hold(
    alloc: Global,
    case: &Case,
    head: &Case,
    words: &[String],
    shelf: &Shelf,
    left: &Left,
) -> Result<(), Slip> {
    if usize::from(left.status) != status(case, head)? {
        return Err(Slip::Status);
    }
    if !has_err(alloc, case, head, left)? {
        return Err(Slip::Err);
    }
    if !has_out(alloc, case, head, words, shelf, left)? {
        return Err(Slip::Out);
    }
    let after = files_after(alloc, case, head)?;
    if !are_same(left.dir.files(), after.as_slice()) {
        return Err(Slip::Files);
    }
    Ok(())
}
