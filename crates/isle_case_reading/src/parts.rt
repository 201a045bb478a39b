//! Parts of what a run wrote on `out`.

use crate::case::{Case, Entry, Key};
use crate::slip::Slip;
use crate::spelling::{number, text_spelt};
use std::alloc::Global;

/// Tells whether a case says which parts `out` has.
pub fn has_parts(case: &Case) -> bool {
    for entry in &case.entries {
        if matches!(entry.key, Key::Holds | Key::Lines) {
            return true;
        }
    }
    false
}

// Whether each of these lines stands in a text.
fn holds_each(lines: &str, out: &str) -> bool {
    for line in lines.lines() {
        if !out.contains(line) {
            return false;
        }
    }
    true
}

// How many lines of a text begin so.
fn count(out: &str, start: &str) -> usize {
    let mut count = 0usize;
    for line in out.lines() {
        if line.starts_with(start) {
            count = count.saturating_add(1);
        }
    }
    count
}

// Whether what a line of a case says holds of a text.
fn holds_part(alloc: Global, entry: &Entry, out: &str) -> Result<bool, Slip> {
    let text = text_spelt(alloc, entry.text.as_str())?;
    match entry.key {
        Key::Holds => Ok(holds_each(text.as_str(), out)),
        Key::Lines => Ok(count(out, text.as_str()) == number(entry.name.as_str())?),
        _ => Ok(true),
    }
}

/// Tells whether `out` has the parts that a case says.
pub fn holds_parts(alloc: Global, case: &Case, out: &[u8]) -> Result<bool, Slip> {
    let out = String::from_utf8_lossy(alloc, out)?;
    for entry in &case.entries {
        if !holds_part(alloc, entry, out.as_str())? {
            return Ok(false);
        }
    }
    Ok(true)
}
