//! Cases as they are read from the text of a topic.

use crate::slip::Slip;
use std::alloc::{AllocError, Global};

/// What a line of a case is about.
#[derive(Clone, Copy, PartialEq, Eq)]
pub enum Key {
    Words,
    File,
    Made,
    Tables,
    After,
    Status,
    Err,
    Out,
    Holds,
    Lines,
    Tokens,
    Names,
    Trait,
    Functions,
    Fails,
    Piece,
    Room,
}

impl Key {
    // The key that a word names.
    fn of(word: &str) -> Option<Key> {
        match word {
            "$" => Some(Key::Words),
            "file" => Some(Key::File),
            "made" => Some(Key::Made),
            "tables" => Some(Key::Tables),
            "after" => Some(Key::After),
            "status" => Some(Key::Status),
            "err" => Some(Key::Err),
            "out" => Some(Key::Out),
            "holds" => Some(Key::Holds),
            "lines" => Some(Key::Lines),
            "tokens" => Some(Key::Tokens),
            "names" => Some(Key::Names),
            "trait" => Some(Key::Trait),
            "functions" => Some(Key::Functions),
            "fails" => Some(Key::Fails),
            "piece" => Some(Key::Piece),
            "room" => Some(Key::Room),
            _ => None,
        }
    }

    // Why no line has this key and this name.
    fn misnamed(self, name: &str) -> Option<Slip> {
        match self {
            Key::File | Key::Made | Key::After | Key::Lines if name.is_empty() => Some(Slip::Name),
            Key::Fails | Key::Piece if !matches!(name, "dir" | "out" | "err") => Some(Slip::Object),
            Key::Room if !matches!(name, "out" | "err") => Some(Slip::Object),
            _ => None,
        }
    }

    // Whether a name stands after the key.
    fn is_named(self) -> bool {
        matches!(
            self,
            Key::File | Key::Made | Key::After | Key::Lines | Key::Fails | Key::Piece | Key::Room
        )
    }
}

/// A line with a key: the name after it, and the text, with that of the block below.
#[derive(Drop)]
pub struct Entry {
    pub key: Key,
    pub name: String,
    pub text: String,
}

/// A case: its name, its lines, and the first fault of how it is written.
#[derive(Drop)]
pub struct Case {
    pub name: String,
    pub entries: Vec<Entry>,
    pub slip: Option<Slip>,
}

impl Case {
    // A case with no line.
    fn new(alloc: Global, name: &str) -> Result<Case, AllocError> {
        Ok(Case {
            name: String::from_str(alloc, name)?,
            entries: Vec::new(alloc),
            slip: None,
        })
    }

    // Takes a fault down, if it is the first.
    fn mark(&mut self, slip: Slip) {
        if self.slip.is_none() {
            self.slip = Some(slip);
        }
    }

    // Adds a line with a key, or one of a block.
    fn add(&mut self, alloc: Global, line: &str) -> Result<(), AllocError> {
        match line.strip_prefix("|") {
            Some(text) => self.add_block(text),
            None => self.add_key(alloc, line),
        }
    }

    // Adds a line of the block below the last key.
    fn add_block(&mut self, line: &str) -> Result<(), AllocError> {
        let Some(entry) = self.entries.last_mut() else {
            self.mark(Slip::Block);
            return Ok(());
        };
        entry.text.push_str(line.strip_prefix(" ").unwrap_or(line))?;
        entry.text.push_str("\\n")
    }

    // Adds a line with a key.
    fn add_key(&mut self, alloc: Global, line: &str) -> Result<(), AllocError> {
        let (word, rest) = split_word(line);
        let Some(key) = Key::of(word) else {
            self.mark(Slip::Key);
            return Ok(());
        };
        let (name, text) = if key.is_named() {
            split_word(rest)
        } else {
            ("", rest)
        };
        if let Some(slip) = key.misnamed(name) {
            self.mark(slip);
        }
        self.entries.push(Entry {
            key,
            name: String::from_str(alloc, name)?,
            text: String::from_str(alloc, text)?,
        })?;
        Ok(())
    }

    /// Returns the one line with this key and this name, if there is one. A key without names has the empty
    /// one.
    pub fn only(&self, key: Key, name: &str) -> Result<Option<&Entry>, Slip> {
        let mut found = None;
        for entry in &self.entries {
            if entry.key == key && entry.name.as_str() == name {
                if found.is_some() {
                    return Err(Slip::Twice);
                }
                found = Some(entry);
            }
        }
        Ok(found)
    }
}

/// Splits a line into its first word, and what stands after the blank.
pub fn split_word(line: &str) -> (&str, &str) {
    match line.split_once(' ') {
        Some((word, rest)) => (word, rest),
        None => (line, ""),
    }
}

/// Returns the head of a topic, a case without a name, and the topic's cases after it.
pub fn cases_of(alloc: Global, text: &str) -> Result<Vec<Case>, AllocError> {
    let mut cases = vec![in alloc; Case::new(alloc, "")?]?;
    for line in text.lines() {
        if let Some(name) = line.strip_prefix("= ") {
            cases.push(Case::new(alloc, name)?)?;
        } else if !line.is_empty() && !line.starts_with('#') {
            if let Some(case) = cases.last_mut() {
                case.add(alloc, line)?;
            }
        }
    }
    Ok(cases)
}
