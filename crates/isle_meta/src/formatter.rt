//! A text of Rust or ISLE, line by line.

ghost use Rattle.std.specs.Prelude.{◌≡◌, ◌+◌, ◌-◌, ◌^◌, ◌≤◌, ◌<◌, ◌++◌};
ghost use Rattle.std.specs.Prelude.{◌∷◌, [], Err, false, IfOk, IfErr};
ghost use Rattle.std.specs.Prelude.{OnOk};
ghost use Rattle.std.specs.Prelude.{OnErr, codes};
ghost use Rattle.isle_meta.specs.Layout.{at_level, comment_mark, deeper, followed_by, joined_name};
ghost use Rattle.isle_meta.specs.Layout.{shallower, with_line};
ghost use Rattle.isle_outside.specs.Directory.{Holds, KeepsEntries, KeepsOthers, Nothing, Rose};
ghost use Rattle.isle_outside.specs.Failures.{is_fault};

use crate::layout::{joined, push_line};
use isle_core::{Dir, DirFault, OutOfMemory};
use std::alloc::Global;
use std::marker::Model;

/// The language of a text.
#[derive(Clone, Copy, Debug, PartialEq, Eq)]
pub enum Language {
    Rust,
    Isle,
}

/// A text on its way, line by line, with levels of indentation. Contracts see its language, level and text.
#[derive(Debug, Drop)]
pub struct Formatter {
    language: Language,
    level: usize,
    text: String,
    // Where a line is put together.
    line: String,
}

impl Model for Formatter {
    ghost use Rattle.std.specs.Prelude.{string_bytes};
    ghost use Rattle.isle_meta.specs.Layout.{Layout};

    ghost Value = { Layout };

    ghost view = { λ f. record { language = f.language; level = f.level; text = string_bytes f.text } };
}

impl Formatter {
    /// Makes an empty text of a language, without indentation. It takes no memory.
    pub fn new(alloc: Global, lang: Language) -> Formatter
        ensures language { result.language ≡ lang }
        ensures level { result.level ≡ 0 }
        ensures text { result.text ≡ [] }
    {
        Formatter {
            language: lang,
            level: 0,
            text: String::new(alloc),
            line: String::new(alloc),
        }
    }

    /// Appends a line: four spaces for each level, the text and a line feed. A refusal leaves all as it was.
    pub fn line(&mut self, text: &str) -> Result<(), OutOfMemory>
        ensures ok { OnOk result (self.new ≡ with_line self.old text.now) }
        ensures err { OnErr result (self.new ≡ self.old) }
    {
        push_line(&mut self.text, &mut self.line, self.level, "", text)?;
        Ok(())
    }

    /// Appends a comment of one line: `//` in Rust and `;;` in ISLE, a blank and the text. A refusal leaves all as it
    /// was.
    pub fn comment(&mut self, text: &str) -> Result<(), OutOfMemory>
        ensures ok { OnOk result
            (self.new ≡ with_line self.old (comment_mark self.old.language ++ text.now)) }
        ensures err { OnErr result (self.new ≡ self.old) }
    {
        let mark = comment_mark(self.language);
        push_line(&mut self.text, &mut self.line, self.level, mark, text)?;
        Ok(())
    }

    /// Appends a whole text as it stands, without blanks of the level. A refusal leaves all as it was.
    pub fn push_text(&mut self, text: &str) -> Result<(), OutOfMemory>
        ensures ok { OnOk result (self.new ≡ followed_by self.old text.now) }
        ensures err { OnErr result (self.new ≡ self.old) }
    {
        self.text.push_str(text)?;
        Ok(())
    }

    /// Appends a line feed. A refusal leaves all as it was.
    pub fn empty_line(&mut self) -> Result<(), OutOfMemory>
        ensures ok { OnOk result (self.new ≡ followed_by self.old (10 ∷ [])) }
        ensures err { OnErr result (self.new ≡ self.old) }
    {
        self.text.push_str("\n")?;
        Ok(())
    }

    /// Appends a line of the head and ` {`, and goes one level deeper. A refusal leaves all as it was.
    pub fn open_block(&mut self, head: &str) -> Result<(), OutOfMemory>
        ensures ok { OnOk result (self.new ≡ deeper (with_line self.old (head.now ++ codes " {"))) }
        ensures err { OnErr result (self.new ≡ self.old) }
    {
        let level = more(self.level)?;
        push_line(&mut self.text, &mut self.line, self.level, head, " {")?;
        self.level = level;
        Ok(())
    }

    /// Goes one level back, and appends a line of `}`. A refusal leaves all as it was.
    pub fn close_block(&mut self) -> Result<(), OutOfMemory>
        requires { 0 < self.old.level }
        ensures ok { OnOk result (self.new ≡ with_line (shallower self.old) (codes "}")) }
        ensures err { OnErr result (self.new ≡ self.old) }
    {
        let level = self.level - 1;
        push_line(&mut self.text, &mut self.line, level, "", "}")?;
        self.level = level;
        Ok(())
    }

    /// Goes one level deeper. A refusal leaves all as it was.
    pub fn indent_push(&mut self) -> Result<(), OutOfMemory>
        ensures ok { OnOk result (self.new ≡ deeper self.old) }
        ensures err { OnErr result (self.new ≡ self.old) }
    {
        self.level = more(self.level)?;
        Ok(())
    }

    /// Goes one level back. It refuses nothing.
    pub fn indent_pop(&mut self) -> Result<(), OutOfMemory>
        requires { 0 < self.old.level }
        ensures never { IfErr result (λ e. ⊥) }
        ensures level { self.new ≡ shallower self.old }
    {
        self.level -= 1;
        Ok(())
    }

    /// Returns the text.
    pub fn text(&self) -> &str
        ensures { result.now ≡ self.now.text }
    {
        self.text.as_str()
    }

    /// Writes the text to the file of the name in the folder, which an empty folder leaves as it is. After `Failed`
    /// that file may hold anything, after `Memory` all files are as before.
    pub fn write<D: Dir>(
        &self,
        alloc: Global,
        name: &str,
        folder: &str,
        dir: &mut D,
    ) -> Result<(), DirFault>
        ensures holds { OnOk result
            (Holds (D.files dir.new) (joined_name folder.now name.now) self.now.text) }
        ensures others { KeepsOthers (D.files dir.old) (D.files dir.new)
            (joined_name folder.now name.now) }
        ensures entries { KeepsEntries (D.files dir.old) (D.files dir.new)
            (joined_name folder.now name.now) }
        ensures memory { result ≡ Err DirFault.Memory → D.files dir.new ≡ D.files dir.old }
        ensures later { (D.counts dir.old).faults ≤ (D.counts dir.new).faults }
        ensures stays { (D.counts dir.old).faults ≡ 2 ^ 64 - 1
            → (D.counts dir.new).faults ≡ 2 ^ 64 - 1 }
        ensures failed { result ≡ Err DirFault.Failed
            → Rose (D.counts dir.old).faults (D.counts dir.new).faults }
        ensures steady { is_fault result ≡ false
            → (D.counts dir.new).faults ≡ (D.counts dir.old).faults }
        ensures finds { (D.counts dir.new).finds ≡ (D.counts dir.old).finds }
        ensures given { (D.counts dir.new).given ≡ (D.counts dir.old).given }
        ensures nothing { OnOk result (D.current dir.new ≡ Nothing) }
    {
        if folder.is_empty() {
            return dir.write_file(name, self.text.as_bytes());
        }
        match joined(alloc, folder, name) {
            Ok(path) => dir.write_file(path.as_str(), self.text.as_bytes()),
            Err(_) => Err(DirFault::Memory),
        }
    }
}

// What begins a comment.
fn comment_mark(language: Language) -> &'static str
    ensures { result.now ≡ comment_mark language }
{
    match language {
        Language::Rust => "// ",
        Language::Isle => ";; ",
    }
}

// One level more. A level that has no number is refused, as a text of that many blanks would be.
fn more(level: usize) -> Result<usize, OutOfMemory>
    ensures { IfOk result (λ more. more ≡ level + 1) }
{
    level.checked_add(1).ok_or(OutOfMemory)
}
