//! Where the lines of the inputs begin, so that a place is printed without a walk over its file.

ghost use Rattle.std.specs.Prelude.{◌≡◌, ◌≤◌, ◌++◌, ℕ, List as ListOf, length, map, IfOk};
ghost use Rattle.std.specs.String.{string_bytes};
ghost use Rattle.isle_core.specs.Places.{LiesIn, name_in, text_in, place_in};
ghost use Rattle.isle_core.specs.declared.files.Files.{Files as CodeFiles};
ghost use Rattle.isle_core.specs.Printed.{line_of};
ghost use Rattle.isle_core.specs.LineStarts.{start_at, starts_of};
ghost use Rattle.isle_core.specs.ErrorLines.{column_of, told_of};

use crate::files::Files;
use crate::position::Pos;
use isle_base::List;
use isle_outside::OutOfMemory;
use std::alloc::{AllocError, Global};
use std::marker::Model;

/// Of each file the places where its lines begin, but the first, in order.
#[derive(Drop)]
pub struct LineStarts {
    files: Vec<List<usize>>,
}

impl Model for LineStarts {
    ghost use Rattle.std.specs.Prelude.{List as ListOf, ℕ};

    ghost Value = { ListOf (ListOf ℕ) };

    ghost view = { λ table. table.files.items };
}

// Makes the places where the lines of a text begin, but the first.
fn starts_of(alloc: Global, text: &str) -> Result<Vec<usize>, AllocError>
    ensures { IfOk result (λ starts. starts.items ≡ starts_of text.now) }
{
    let mut starts = Vec::new(alloc);
    let mut rest = text;
    while let Some((_, after)) = rest.split_once('\n') {
        starts.push(text.len() - after.len())?;
        rest = after;
    }
    Ok(starts)
}

// Returns the number of the line of a place in a text whose lines begin there, from 1.
fn line_number(starts: &[usize], offset: usize) -> usize
    ensures { (text : ListOf ℕ) → starts.now ≡ starts_of text → result ≡ line_of text offset }
{
    1 + starts.partition_point(|start| *start <= offset)
}

// Returns where the line begins that has so many lines before it.
fn start_at(starts: &[usize], before: usize) -> usize
    requires { before ≤ length starts.now }
    ensures { result ≡ start_at starts.now before }
{
    if before == 0 { 0 } else { starts[before - 1] }
}

// Returns the number of the column of a place, in bytes from 1.
fn column_number(text: &str, starts: &[usize], offset: usize) -> usize
    requires starts { starts.now ≡ starts_of text.now }
    requires within { offset ≤ length text.now }
    ensures { result ≡ column_of text.now offset }
{
    let before = starts.partition_point(|start| *start <= offset);
    1 + (offset - start_at(starts, before))
}

// Returns the name of a file; of one that is not there it is empty.
fn name_of(files: &Files, file: usize) -> &str
    ensures { result.now ≡ name_in files.now file }
{
    match files.file_names.as_slice().get(file) {
        Some(name) => name.as_str(),
        None => "",
    }
}

impl LineStarts {
    /// Makes the places of all files, by one walk over their texts. Fails for want of memory alone.
    pub fn new(alloc: Global, files: &Files) -> Result<LineStarts, AllocError>
        ensures { IfOk result (λ table. table ≡ map starts_of files.now.file_texts) }
    {
        let mut starts = Vec::new(alloc);
        for text in files.file_texts.as_slice() {
            let of_text = starts_of(alloc, text.as_str())?;
            starts.push(List::new(of_text))?;
        }
        Ok(LineStarts { files: starts })
    }

    // Returns the number of the line of a place in a file; of a file that is not there it is 1.
    fn line(&self, pos: Pos) -> usize
        ensures { (files : CodeFiles) → self.now ≡ map starts_of files.file_texts
            → result ≡ line_of (text_in files pos.file) pos.offset }
    {
        match self.files.as_slice().get(pos.file) {
            Some(starts) => line_number(starts.as_slice(), pos.offset),
            None => 1,
        }
    }

    /// Prints a place; the table is that of the files. Where its file is not there, its name is empty. Fails for want
    /// of memory alone.
    pub fn place(&self, alloc: Global, files: &Files, pos: Pos) -> Result<String, OutOfMemory>
        requires { self.now ≡ map starts_of files.now.file_texts }
        ensures { IfOk result (λ text. string_bytes text ≡ place_in files.now pos) }
    {
        let name = name_of(files, pos.file);
        let line = self.line(pos);
        Ok(format!(in alloc; "{name} line {line}")?)
    }

    /// Prints what is said of a place, which lies in the files, as `NAME:LINE:COLUMN: ..`; the table is theirs. Fails
    /// for want of memory alone.
    pub fn told(
        &self,
        alloc: Global,
        files: &Files,
        pos: Pos,
        said: &str,
    ) -> Result<String, OutOfMemory>
        requires table { self.now ≡ map starts_of files.now.file_texts }
        requires place { LiesIn files.now pos }
        ensures { IfOk result (λ text. string_bytes text ≡ told_of files.now pos said.now) }
    {
        let name = files.file_names.as_slice()[pos.file].as_str();
        let text = files.file_texts.as_slice()[pos.file].as_str();
        let starts = self.files.as_slice()[pos.file].as_slice();
        let line = line_number(starts, pos.offset);
        let column = column_number(text, starts, pos.offset);
        Ok(format!(in alloc; "{name}:{line}:{column}: {said}")?)
    }
}
