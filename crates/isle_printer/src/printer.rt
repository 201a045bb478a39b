//! The printer. Its value is the list of the tokens printed so far: blanks, lines and comments are its own affair.

ghost use Rattle.std.specs.Prelude.{◌≡◌, ◌<◌, ◌≤◌, ◌-◌, ◌++◌, [], ◌∷◌, OnOk, IsTrue, length, slice_index};
ghost use Rattle.std.specs.Prelude.{string_bytes, codes};
ghost use Rattle.std.specs.List.{list_all};
ghost use Rattle.isle_printer.specs.Token.{Word, Mark, Quoted, is_word, is_word_byte, is_blank, is_mark};
ghost use Rattle.isle_printer.specs.Token.{goes_on, left_open, tokens_of, scan, Between, InWord};
ghost use Rattle.isle_printer.specs.Glue.{Settles, Ends, EndsAtWord, meets, is_open, noted};
ghost use Rattle.isle_printer.specs.Number.{numeral};

use crate::numeral::push_numeral;
use crate::quote::quote;
use std::alloc::{AllocError, Global};
use std::marker::Model;

/// The kind of token that the text ends with, if a next byte can run into it.
#[derive(Clone, Copy)]
enum Last {
    Nothing,
    Word,
    Mark(u8),
}

/// A text on its way, token by token. A token of several parts is put together in `parts`.
#[derive(Drop)]
pub struct Printer {
    text: String,
    last: Last,
    depth: usize,
    parts: String,
}

impl Model for Printer {
    ghost use Rattle.std.specs.Prelude.{List, string_bytes};
    ghost use Rattle.isle_printer.specs.Token.{Token, tokens_of, scan};

    ghost Value = { List Token };

    ghost use Rattle.isle_printer.specs.Glue.{Settles};

    ghost view = { λ p. tokens_of (string_bytes p.text) };

    ghost invariant = { λ p. Settles p.last (scan (string_bytes p.text)).state };
}

// A letter, a digit or _.
fn is_word_byte(b: u8) -> bool
    ensures { result ≡ is_word_byte b }
{
    b.is_ascii_alphanumeric() || b == b'_'
}

// Whether the second byte goes on the mark that the first began.
fn goes_on(a: u8, b: u8) -> bool
    ensures { result ≡ goes_on a b }
{
    matches!(
        (a, b),
        (b':', b':')
            | (b'-', b'>')
            | (b'=', b'>')
            | (b'=', b'=')
            | (b'>', b'=')
            | (b'.', b'.')
            | (b'|', b'|')
            | (b'/', b'/')
    )
}

// Whether a byte put down now would run into the token before it.
fn meets(last: Last, next: u8) -> bool
    ensures { result ≡ meets last next }
{
    match last {
        Last::Nothing => false,
        Last::Word => is_word_byte(next),
        Last::Mark(a) => goes_on(a, next),
    }
}

// What stays open after a mark: one byte may become a pair, a pair is whole.
fn noted(mark: &[u8]) -> Last
    ensures { result ≡ noted mark.now }
{
    match mark {
        [a] => Last::Mark(*a),
        _ => Last::Nothing,
    }
}

// A space, a tab, CR or LF.
fn is_blank(b: u8) -> bool
    ensures { result ≡ is_blank b }
{
    b == b' ' || b == b'\t' || b == b'\n' || b == b'\r'
}

// What stays open after a blank, or after a mark of one byte.
fn left_open(last: u8) -> Last
    ensures { Settles result (left_open last) }
{
    if is_blank(last) {
        Last::Nothing
    } else {
        Last::Mark(last)
    }
}

// Puts a blank if the next byte would run into the token before it.
fn part_from(text: &mut String, last: &mut Last, next: u8) -> Result<(), AllocError>
    requires { Settles last.old (scan (string_bytes text.old)).state }
    ensures ok { OnOk result (Ends (scan (string_bytes text.new)).state next) }
    ensures settled { Settles last.new (scan (string_bytes text.new)).state }
    ensures same { tokens_of (string_bytes text.new) ≡ tokens_of (string_bytes text.old) }
{
    if meets(*last, next) {
        text.push_str(" ")?;
        *last = Last::Nothing;
    }
    Ok(())
}

// Whether a word put down now would run into the token before it.
fn is_open(last: Last) -> bool
    ensures { result ≡ is_open last }
{
    match last {
        Last::Word => true,
        Last::Nothing | Last::Mark(_) => false,
    }
}

// Puts a blank if a word would run into the token before it.
fn part_from_word(text: &mut String, last: &mut Last) -> Result<(), AllocError>
    requires { Settles last.old (scan (string_bytes text.old)).state }
    ensures ok { OnOk result (EndsAtWord (scan (string_bytes text.new)).state) }
    ensures settled { Settles last.new (scan (string_bytes text.new)).state }
    ensures same { tokens_of (string_bytes text.new) ≡ tokens_of (string_bytes text.old) }
{
    if is_open(*last) {
        text.push_str(" ")?;
        *last = Last::Nothing;
    }
    Ok(())
}

// Prints a word.
fn push_word(text: &mut String, last: &mut Last, word: &str) -> Result<(), AllocError>
    requires word { IsTrue (is_word word.now) }
    requires settled { Settles last.old (scan (string_bytes text.old)).state }
    ensures ok { OnOk result
        (tokens_of (string_bytes text.new)
        ≡ tokens_of (string_bytes text.old) ++ Word word.now ∷ []) }
    ensures scanned { OnOk result
        (scan (string_bytes text.new)
        ≡ record { tokens = tokens_of (string_bytes text.old); state = InWord word.now }) }
    ensures settled { Settles last.new (scan (string_bytes text.new)).state }
{
    part_from_word(text, last)?;
    text.push_str(word)?;
    *last = Last::Word;
    Ok(())
}

// Ends the line, unless the text is at the begin of one.
fn end_line(text: &mut String, last: &mut Last) -> Result<(), AllocError>
    requires { Settles last.old (scan (string_bytes text.old)).state }
    ensures ok { OnOk result ((scan (string_bytes text.new)).state ≡ Between) }
    ensures settled { Settles last.new (scan (string_bytes text.new)).state }
    ensures same { tokens_of (string_bytes text.new) ≡ tokens_of (string_bytes text.old) }
{
    if let Last::Nothing = *last {
        if text.is_empty() || text.ends_with('\n') {
            return Ok(());
        }
    }
    part_from(text, last, b'\n')?;
    text.push_str("\n")?;
    *last = Last::Nothing;
    Ok(())
}

// How many levels a line is set in at most, so that a text nested deep grows with its tokens alone.
const MOST_LEVELS: usize = 32;

const ONE_LEVEL: &str = "    ";

const FOUR_LEVELS: &str = "                ";

const SIXTEEN_LEVELS: &str = "                                                                ";

// Some blanks, so many times.
fn push_blanks(text: &mut String, blanks: &str, times: usize) -> Result<(), AllocError>
    requires between { (scan (string_bytes text.old)).state ≡ Between }
    requires blanks { IsTrue (list_all is_blank blanks.now) }
    ensures { scan (string_bytes text.new) ≡ scan (string_bytes text.old) }
{
    for _ in 0..times {
        text.push_str(blanks)?;
    }
    Ok(())
}

// Four blanks for each level, up to the most: those of sixteen levels, and of four, at once.
fn pad(text: &mut String, depth: usize) -> Result<(), AllocError>
    requires { (scan (string_bytes text.old)).state ≡ Between }
    ensures { scan (string_bytes text.new) ≡ scan (string_bytes text.old) }
{
    let levels = depth.min(MOST_LEVELS);
    push_blanks(text, SIXTEEN_LEVELS, levels / 16)?;
    push_blanks(text, FOUR_LEVELS, levels % 16 / 4)?;
    push_blanks(text, ONE_LEVEL, levels % 4)
}

impl Printer {
    /// Makes a printer that has printed nothing.
    pub fn new(alloc: Global) -> Self
        ensures { result ≡ [] }
    {
        Printer {
            text: String::new(alloc),
            last: Last::Nothing,
            depth: 0,
            parts: String::new(alloc),
        }
    }

    /// Hands over the text: it spells what was printed.
    pub fn into_text(self) -> String
        ensures { tokens_of (string_bytes result) ≡ self }
    {
        self.text
    }

    /// Prints a name, a keyword or a number. What is printed after an error is left open.
    pub fn word(&mut self, word: &str) -> Result<(), AllocError>
        requires { IsTrue (is_word word.now) }
        ensures { OnOk result (self.new ≡ self.old ++ Word word.now ∷ []) }
    {
        push_word(&mut self.text, &mut self.last, word)
    }

    /// Prints a mark, as ; or ::. What is printed after an error is left open.
    pub fn mark(&mut self, mark: &str) -> Result<(), AllocError>
        requires { IsTrue (is_mark mark.now) }
        ensures { OnOk result (self.new ≡ self.old ++ Mark mark.now ∷ []) }
    {
        let bytes = mark.as_bytes();
        part_from(&mut self.text, &mut self.last, bytes[0])?;
        self.text.push_str(mark)?;
        self.last = noted(bytes);
        Ok(())
    }

    /// Prints one word of two parts, as constructor_a. What is printed after an error is left open.
    pub fn prefixed(&mut self, prefix: &str, word: &str) -> Result<(), AllocError>
        requires prefix { IsTrue (is_word prefix.now) }
        requires word { IsTrue (list_all is_word_byte word.now) }
        ensures { OnOk result (self.new ≡ self.old ++ Word (prefix.now ++ word.now) ∷ []) }
    {
        push_word(&mut self.text, &mut self.last, prefix)?;
        self.text.push_str(word)?;
        Ok(())
    }

    /// Prints one word: a number with its type, as 0xff_u8, the prefix before the digits. What is printed after an
    /// error is left open.
    pub fn number(&mut self, prefix: &str, n: u128, base: u8, ty: &str) -> Result<(), AllocError>
        requires low { 2 ≤ base }
        requires high { base ≤ 16 }
        requires prefix { IsTrue (list_all is_word_byte prefix.now) }
        requires ty { IsTrue (list_all is_word_byte ty.now) }
        ensures { OnOk result
            (self.new ≡ self.old ++ Word (prefix.now ++ (numeral base n ++ 95 ∷ ty.now)) ∷ []) }
    {
        self.parts.clear();
        self.parts.push_str(prefix)?;
        push_numeral(&mut self.parts, n, base)?;
        self.parts.push_str("_")?;
        self.parts.push_str(ty)?;
        push_word(&mut self.text, &mut self.last, &self.parts)
    }

    /// Prints one word: some letters and after them a number, as v12. What is printed after an error is left open.
    pub fn numbered(&mut self, prefix: &str, n: usize) -> Result<(), AllocError>
        requires { IsTrue (list_all is_word_byte prefix.now) }
        ensures { OnOk result (self.new ≡ self.old ++ Word (prefix.now ++ numeral 10 n) ∷ []) }
    {
        self.parts.clear();
        self.parts.push_str(prefix)?;
        push_numeral(&mut self.parts, n as u128, 10)?;
        push_word(&mut self.text, &mut self.last, &self.parts)
    }

    /// Prints one word: a number's hexadecimal digits after `0x`. What is printed after an error is left open.
    pub fn hexadecimal(&mut self, n: u128) -> Result<(), AllocError>
        ensures { OnOk result (self.new ≡ self.old ++ Word (codes "0x" ++ numeral 16 n) ∷ []) }
    {
        self.parts.clear();
        self.parts.push_str("0x")?;
        push_numeral(&mut self.parts, n, 16)?;
        push_word(&mut self.text, &mut self.last, &self.parts)
    }

    /// Prints a text between quotes, whatever it holds. What is printed after an error is left open.
    pub fn quoted(&mut self, text: &str) -> Result<(), AllocError>
        ensures { OnOk result (self.new ≡ self.old ++ Quoted text.now ∷ []) }
    {
        quote(&mut self.parts, text)?;
        part_from(&mut self.text, &mut self.last, b'"')?;
        self.text.push_str(&self.parts)?;
        self.last = Last::Nothing;
        Ok(())
    }

    /// Prints a piece of text as it is: some tokens, and after them a blank, or a mark of one byte as the last one.
    /// What is printed after an error is left open.
    pub fn piece(&mut self, piece: &str) -> Result<(), AllocError>
        requires begins { 0 < length piece.now }
        requires ends { (scan piece.now).state
            ≡ left_open (slice_index piece.now (length piece.now - 1)) }
        ensures { OnOk result (self.new ≡ self.old ++ tokens_of piece.now) }
    {
        let bytes = piece.as_bytes();
        part_from(&mut self.text, &mut self.last, bytes[0])?;
        self.text.push_str(piece)?;
        self.last = left_open(bytes[bytes.len() - 1]);
        Ok(())
    }

    /// Prints a whole text as it is, from the begin of a line on. What is printed after an error is left open.
    pub fn fixed(&mut self, fixed: &str) -> Result<(), AllocError>
        requires { (scan fixed.now).state ≡ Between }
        ensures { OnOk result (self.new ≡ self.old ++ tokens_of fixed.now) }
    {
        end_line(&mut self.text, &mut self.last)?;
        self.text.push_str(fixed)?;
        self.last = Last::Nothing;
        Ok(())
    }

    /// Begins a line, as far in as the depth says, up to 32 levels.
    pub fn line(&mut self) -> Result<(), AllocError>
        ensures { self.new ≡ self.old }
    {
        part_from(&mut self.text, &mut self.last, b'\n')?;
        self.text.push_str("\n")?;
        self.last = Last::Nothing;
        pad(&mut self.text, self.depth)
    }

    /// Puts a blank that only the reader needs.
    pub fn space(&mut self) -> Result<(), AllocError>
        ensures { self.new ≡ self.old }
    {
        part_from(&mut self.text, &mut self.last, b' ')?;
        self.text.push_str(" ")?;
        self.last = Last::Nothing;
        Ok(())
    }

    /// Begins lines four blanks further in from here on, up to 32 levels: a line deeper than that stands as far in as
    /// one of 32.
    pub fn indent(&mut self)
        ensures { self.new ≡ self.old }
    {
        self.depth = self.depth.saturating_add(1);
    }

    /// Begins lines four blanks less far in from here on, as far as they can.
    pub fn dedent(&mut self)
        ensures { self.new ≡ self.old }
    {
        self.depth = self.depth.saturating_sub(1);
    }
}
