//! Names in words for the user.

use isle_core::{OutOfMemory, Text};
use std::alloc::Global;

/// Puts words around a name.
pub fn told(alloc: Global, before: &str, name: &str, behind: &str) -> Result<Text, OutOfMemory> {
    let mut words = String::from_str(alloc, before)?;
    push_name(&mut words, name)?;
    words.push_str(behind)?;
    Ok(Text::new(words))
}

/// Adds a name, each character below a blank as `?`.
pub fn push_name(words: &mut String, name: &str) -> Result<(), OutOfMemory> {
    for letter in name.chars() {
        words.push(if letter < ' ' { '?' } else { letter })?;
    }
    Ok(())
}
