//! Faults in definitions, and the lines in which they are reported.

ghost use Rattle.std.specs.Prelude.{◌≡◌, ◌++◌, All, Some as SomeOf, IfOk, OnOk, IsSomeAnd, codes, map, option_copied};
ghost use Rattle.std.specs.String.{string_bytes};
ghost use Rattle.isle_core.specs.ErrorLines.{IsPlaced, kind_of, words_of, span_of, error_text, error_line};
ghost use Rattle.isle_core.specs.ErrorLines.{error_lines, masked, shown_line, shown_lines};
ghost use Rattle.isle_core.specs.LineStarts.{starts_of};

use crate::files::Files;
use crate::line_starts::LineStarts;
use crate::position::Span;
use isle_base::{List, Text};
use isle_outside::OutOfMemory;
use std::alloc::Global;

/// A fault in the definitions, with its place.
#[derive(Debug)]
pub enum Error {
    ParseError { msg: Text, span: Span },
    /// The row is that of the typing table.
    TypeError { row: u8, msg: Text, span: Span },
    UnreachableError { msg: Text, span: Span },
    /// The earlier rule, then the later one.
    OverlapError { msg: Text, rules: List<Span> },
    ShadowedError { shadowed: Span, mask: Span },
    RecursionError { msg: Text, span: Span },
}

impl Drop for Error {
    // Gives up what the variant holds, in one call wherever a value is dropped.
    fn drop(self) {
        match self {
            Error::ParseError {
                msg: _msg,
                span: _span,
            } => {}
            Error::TypeError {
                row: _row,
                msg: _msg,
                span: _span,
            } => {}
            Error::UnreachableError {
                msg: _msg,
                span: _span,
            } => {}
            Error::OverlapError {
                msg: _msg,
                rules: _rules,
            } => {}
            Error::ShadowedError {
                shadowed: _shadowed,
                mask: _mask,
            } => {}
            Error::RecursionError {
                msg: _msg,
                span: _span,
            } => {}
        }
    }
}

impl Error {
    // What kind of error it is.
    fn kind(&self) -> &'static str
        ensures { result.now ≡ kind_of self.now }
    {
        match self {
            Error::ParseError { .. } => "parse error",
            Error::TypeError { .. } => "type error",
            Error::UnreachableError { .. } => "unreachable rule",
            Error::OverlapError { .. } => "overlap error",
            Error::ShadowedError { .. } => "shadowed rule",
            Error::RecursionError { .. } => "recursion error",
        }
    }

    // The words that report it.
    fn words(&self) -> &str
        ensures { result.now ≡ words_of self.now }
    {
        match self {
            Error::ParseError { msg, .. }
            | Error::TypeError { msg, .. }
            | Error::UnreachableError { msg, .. }
            | Error::OverlapError { msg, .. }
            | Error::RecursionError { msg, .. } => msg.as_str(),
            Error::ShadowedError { .. } => {
                "a rule of higher priority matches whatever this rule matches"
            }
        }
    }

    // The span whose start is told.
    fn span(&self) -> Option<Span>
        ensures { result ≡ span_of self.now }
    {
        match self {
            Error::ParseError { span, .. }
            | Error::TypeError { span, .. }
            | Error::UnreachableError { span, .. }
            | Error::RecursionError { span, .. } => Some(*span),
            Error::OverlapError { rules, .. } => rules.as_slice().get(1).copied(),
            Error::ShadowedError { shadowed, .. } => Some(*shadowed),
        }
    }

    // What reports it, without a line's end.
    fn text(&self, alloc: Global, starts: &LineStarts, files: &Files) -> Result<String, OutOfMemory>
        requires table { starts.now ≡ map starts_of files.now.file_texts }
        requires placed { IsPlaced files.now self.now }
        ensures { IfOk result (λ text. string_bytes text ≡ error_text files.now self.now) }
    {
        let kind = self.kind();
        let words = self.words();
        let said = format!(in alloc; "{kind}: {words}")?;
        match self.span() {
            Some(span) => starts.told(alloc, files, span.from, said.as_str()),
            None => Ok(said),
        }
    }

    // The line that reports it.
    fn line(&self, alloc: Global, starts: &LineStarts, files: &Files) -> Result<String, OutOfMemory>
        requires table { starts.now ≡ map starts_of files.now.file_texts }
        requires placed { IsPlaced files.now self.now }
        ensures { IfOk result (λ text. string_bytes text ≡ error_line files.now self.now) }
    {
        let mut line = self.text(alloc, starts, files)?;
        line.push_str("\n")?;
        Ok(line)
    }

    // The line that reports it, as it is shown.
    fn shown(
        &self,
        alloc: Global,
        starts: &LineStarts,
        files: &Files,
    ) -> Result<Vec<u8>, OutOfMemory>
        requires table { starts.now ≡ map starts_of files.now.file_texts }
        requires placed { IsPlaced files.now self.now }
        ensures { IfOk result (λ bytes. bytes.items ≡ shown_line files.now self.now) }
    {
        let text = self.text(alloc, starts, files)?;
        let mut line = masked_bytes(alloc, text.as_str())?;
        line.extend_from_slice(b"\n")?;
        Ok(line)
    }
}

/// Returns a byte as a line shows it: one below 32, which may steer a terminal, as `?`.
pub fn masked(byte: u8) -> u8
    ensures { result ≡ masked byte }
{
    if byte < 32 { b'?' } else { byte }
}

// The bytes of a text as a line shows them.
fn masked_bytes(alloc: Global, text: &str) -> Result<Vec<u8>, OutOfMemory>
    ensures { IfOk result (λ bytes. bytes.items ≡ map masked text.now) }
{
    let mut bytes = Vec::new(alloc);
    for byte in text.as_bytes() {
        bytes.push(masked(*byte))?;
    }
    Ok(bytes)
}

/// The errors of one check, in order, with the files that their places lie in.
#[derive(Debug, Drop)]
pub struct Errors {
    pub errors: List<Error>,
    pub files: Files,
}

impl Errors {
    /// Returns a line for each error, in order: `NAME:LINE:COLUMN: KIND: WORDS`, lines and columns counted from 1,
    /// columns in bytes. The place is where the error's span begins; of an overlap that of the later rule, of a
    /// shadowed rule its own. Fails for want of memory alone.
    pub fn lines(&self, alloc: Global) -> Result<String, OutOfMemory>
        requires { All (IsPlaced self.now.files) self.now.errors }
        ensures { IfOk result (λ text.
            string_bytes text ≡ error_lines self.now.files self.now.errors) }
    {
        let starts = LineStarts::new(alloc, &self.files)?;
        let mut out = String::new(alloc);
        for error in self.errors.as_slice() {
            let line = error.line(alloc, &starts, &self.files)?;
            out.push_str(line.as_str())?;
        }
        Ok(out)
    }
    /// Returns the bytes of the same lines as a terminal may be shown them: in each, a byte below 32 before its end is
    /// `?`, so a name of a file neither breaks a line nor steers the terminal. Fails for want of memory alone.
    pub fn shown_lines(&self, alloc: Global) -> Result<Vec<u8>, OutOfMemory>
        requires { All (IsPlaced self.now.files) self.now.errors }
        ensures { IfOk result (λ bytes. bytes.items ≡ shown_lines self.now.files self.now.errors) }
    {
        let starts = LineStarts::new(alloc, &self.files)?;
        let mut out = Vec::new(alloc);
        for error in self.errors.as_slice() {
            let line = error.shown(alloc, &starts, &self.files)?;
            out.extend_from_slice(line.as_slice())?;
        }
        Ok(out)
    }
}
