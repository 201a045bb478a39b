//! What a case wants on `out`.

use crate::case::{Case, Entry, Key};
use crate::slip::Slip;
use crate::spelling::{spelt, text_spelt, words_of};
use crate::tokens::tokens;
use std::alloc::{AllocError, Global};

/// The frame of a text of which a case gives the trait and the functions.
const FRAME: &str = "@frame.rs";

/// The files that lie beside the cases, with their names.
#[derive(Drop)]
pub struct Shelf {
    pub files: Vec<(String, String)>,
}

impl Shelf {
    // The text of the file of a name.
    fn text(&self, name: &str) -> Option<&str> {
        for (file, text) in &self.files {
            if file.as_str() == name {
                return Some(text.as_str());
            }
        }
        None
    }
}

/// What is wanted on `out`.
#[derive(Drop)]
pub enum Wanted {
    /// These bytes.
    Bytes(Vec<u8>),
    /// These tokens.
    Tokens(Vec<u8>),
}

impl Wanted {
    /// Tells whether a text is what is wanted.
    pub fn is_met(&self, alloc: Global, out: &[u8]) -> Result<bool, AllocError> {
        match self {
            Wanted::Bytes(bytes) => Ok(bytes.as_slice() == out),
            Wanted::Tokens(wanted) => Ok(wanted.as_slice() == tokens(alloc, out)?.as_slice()),
        }
    }
}

/// Returns the line of a case with this key and name, or that of the head.
pub fn entry<'c>(
    case: &'c Case,
    head: &'c Case,
    key: Key,
    name: &str,
) -> Result<Option<&'c Entry>, Slip> {
    match case.only(key, name)? {
        Some(entry) => Ok(Some(entry)),
        None => head.only(key, name),
    }
}

// The line of one case that says what is wanted on `out`.
fn way(case: &Case) -> Result<Option<&Entry>, Slip> {
    let mut found = None;
    for key in [Key::Out, Key::Tokens, Key::Functions] {
        if let Some(entry) = case.only(key, "")? {
            if found.is_some() {
                return Err(Slip::Twice);
            }
            found = Some(entry);
        }
    }
    Ok(found)
}

/// The texts that a line `@NAME` stands for.
#[derive(Drop)]
struct Parts<'c> {
    names: String,
    members: String,
    functions: String,
    shelf: &'c Shelf,
}

impl<'c> Parts<'c> {
    // The text of a part.
    fn text(&self, name: &str) -> Result<&str, Slip> {
        match name {
            "names" => Ok(self.names.as_str()),
            "trait" => Ok(self.members.as_str()),
            "functions" => Ok(self.functions.as_str()),
            _ => match self.shelf.text(name) {
                Some(text) => Ok(text),
                None => Err(Slip::NoPart),
            },
        }
    }

    // The text in which each line `@NAME` is the part of that name.
    fn fill(&self, alloc: Global, text: &str) -> Result<String, Slip> {
        let mut filled = String::new(alloc);
        for line in text.lines() {
            match line.strip_prefix("@") {
                Some(name) => filled.push_str(self.text(name)?)?,
                None => filled.push_str(line)?,
            }
            filled.push_str("\n")?;
        }
        Ok(filled)
    }
}

// The lines of the header that name files: those of the line `names`, or those after the first word.
fn name_lines(alloc: Global, names: Option<&Entry>, words: &[String]) -> Result<String, Slip> {
    match names {
        Some(entry) => lines_of(alloc, words_of(alloc, entry.text.as_str())?.as_slice()),
        None => match words {
            [_, names @ ..] => lines_of(alloc, names),
            [] => Err(Slip::NoNames),
        },
    }
}

// A line of the header for each name.
fn lines_of(alloc: Global, names: &[String]) -> Result<String, Slip> {
    let mut lines = String::new(alloc);
    for name in names {
        lines.push_str("// - ")?;
        lines.push_str(name.as_str())?;
        lines.push_str("\n")?;
    }
    Ok(lines)
}

// The text of a line, spelled out; without the line it is empty.
fn spelt_of(alloc: Global, entry: Option<&Entry>) -> Result<String, Slip> {
    match entry {
        Some(entry) => text_spelt(alloc, entry.text.as_str()),
        None => Ok(String::new(alloc)),
    }
}

// Whether a case has a line that serves its functions alone.
fn is_idle(case: &Case) -> Result<bool, Slip> {
    Ok(case.only(Key::Trait, "")?.is_some() || case.only(Key::Names, "")?.is_some())
}

/// Returns what the case wants on `out`, if it says so.
pub fn wanted_out(
    alloc: Global,
    case: &Case,
    head: &Case,
    words: &[String],
    shelf: &Shelf,
) -> Result<Option<Wanted>, Slip> {
    let found = match way(case)? {
        Some(way) => Some(way),
        None => way(head)?,
    };
    match found {
        Some(way) if way.key != Key::Out => {
            let text = filled(alloc, case, head, way, words, shelf)?;
            Ok(Some(Wanted::Tokens(tokens(alloc, text.as_bytes())?)))
        }
        _ if is_idle(case)? => Err(Slip::Unused),
        Some(way) => Ok(Some(Wanted::Bytes(spelt(alloc, way.text.as_str())?))),
        None => Ok(None),
    }
}

// The text whose tokens are wanted: the text of the line, or the frame with its functions.
fn filled(
    alloc: Global,
    case: &Case,
    head: &Case,
    way: &Entry,
    words: &[String],
    shelf: &Shelf,
) -> Result<String, Slip> {
    let own = text_spelt(alloc, way.text.as_str())?;
    let (text, functions) = if way.key == Key::Functions {
        (String::from_str(alloc, FRAME)?, own)
    } else {
        (own, String::new(alloc))
    };
    let parts = Parts {
        names: name_lines(alloc, entry(case, head, Key::Names, "")?, words)?,
        members: spelt_of(alloc, entry(case, head, Key::Trait, "")?)?,
        functions,
        shelf,
    };
    let once = parts.fill(alloc, text.as_str())?;
    parts.fill(alloc, once.as_str())
}
