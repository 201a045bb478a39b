ghost use Rattle.std.specs.Prelude.{◌≡◌, ◌≤◌, ◌==◌, length, count_by, take, IfOk, IsSomeAnd, slice_get};
ghost use Rattle.std.specs.String.{string_bytes};
ghost use Rattle.isle_core.specs.Places.{LiesIn, place_in};
ghost use Rattle.isle_core.specs.Printed.{line_of};

use crate::files::Files;
use isle_outside::OutOfMemory;
use std::alloc::Global;

/// A place in the inputs: the number of the file, and the byte in it, both from 0.
#[derive(Clone, Copy, Debug, PartialEq, Eq)]
pub struct Pos {
    pub file: usize,
    pub offset: usize,
}

/// A part of an input, from its first place to its last.
#[derive(Clone, Copy, Debug, PartialEq, Eq)]
pub struct Span {
    pub from: Pos,
    pub to: Pos,
}

impl Span {
    /// Makes the span that begins and ends at the place.
    pub fn new_single(pos: Pos) -> Span
        ensures from { result.from ≡ pos }
        ensures to { result.to ≡ pos }
    {
        Span { from: pos, to: pos }
    }
}

impl Pos {
    /// Returns the place as it is printed: the file's name as printed, ` line ` and the number of the line, from 1.
    pub fn pretty_print_line(self, alloc: Global, files: &Files) -> Result<String, OutOfMemory>
        requires { LiesIn files.now self }
        ensures { IfOk result (λ text. string_bytes text ≡ place_in files.now self) }
    {
        let name = files.file_names.as_slice()[self.file].as_str();
        let text = files.file_texts.as_slice()[self.file].as_str();
        let line = line_number(text.as_bytes(), self.offset);
        Ok(format!(in alloc; "{name} line {line}")?)
    }
}

// The number of the line of a place in a text, from 1.
fn line_number(text: &[u8], offset: usize) -> usize
    requires { offset ≤ length text.now }
    ensures { result ≡ line_of text.now offset }
{
    1 + text[..offset].iter().filter(|byte| **byte == b'\n').count()
}
