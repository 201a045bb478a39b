//! Words and small numbers as the lines of calls have them.

use std::alloc::AllocError;

/// Writes words in a row.
pub fn push_all(lines: &mut String, words: &[&str]) -> Result<(), AllocError> {
    for word in words {
        lines.push_str(word)?;
    }
    Ok(())
}

/// The word for a truth.
pub fn yes_no(truth: bool) -> &'static str {
    if truth { "yes" } else { "no" }
}

/// A number below ten; another one is `many`.
pub fn digit(number: usize) -> &'static str {
    match number {
        0 => "0",
        1 => "1",
        2 => "2",
        3 => "3",
        4 => "4",
        5 => "5",
        6 => "6",
        7 => "7",
        8 => "8",
        9 => "9",
        _ => "many",
    }
}
